// The calls for other languages: each answers one number, 2^63 plus a stop's number where it stops.
#![tactic(auto)]

ghost use Rattle.std.specs.Prelude.{◌≡◌, length};
ghost use Rattle.call_answers.specs.Answers.{within, answer_of, left_of};
ghost use Rattle.call_answers.specs.Calls.{builds, checks, lists_cuboid, expands, looks_up};
ghost use Rattle.call_answers.specs.Keys.{lists_keys, tells_fixed};
ghost use Rattle.call_answers.specs.Joins.{joins};
ghost use Rattle.stops.specs.Numbers.{number, numbered};
ghost use Rattle.call_answers.specs.Numbers.{stop_number, written_number, checked_number, found_number, sum_left, count_left, entry_left, fixed_number};
ghost use Rattle.call_fee.specs.Fees.{shares_fee};
ghost use Rattle.call_add.specs.Adds.{adds};
ghost use Rattle.call_window.specs.Windows.{asks_window};
ghost use Rattle.call_window.specs.Numbers.{seen_number, seen_sum_left, seen_count_left};

use stops::Stop;

// What a call answers for a stop: 2^63 and its number.
fn refused(stop: Stop) -> u64
    ensures { result ≡ stop_number (number stop) }
{
    0x8000_0000_0000_0000 + u64::from(stop.number())
}

// The number of a call that writes an output.
fn number(answer: Result<usize, Stop>) -> u64
    ensures { result ≡ written_number (numbered answer) }
{
    match answer {
        Ok(n) => n as u64,
        Err(stop) => refused(stop),
    }
}

// Builds the archive of a table: the length written.
#[unsafe(no_mangle)]
pub extern "C" fn cube_build(table: &[u8], out: &mut [u8]) -> u64
    ensures value { result ≡ written_number (answer_of (within (length out.old) (builds table.now))) }
    ensures out_after { out.new ≡ left_of (within (length out.old) (builds table.now)) out.old }
{
    number(call_build::build(table, out))
}

// Checks an archive: the base count plus 2^32 times the normal count.
#[unsafe(no_mangle)]
pub extern "C" fn cube_check(archive: &[u8]) -> u64
    ensures { result ≡ checked_number (checks archive.now) }
{
    match call_ask::check(archive) {
        Ok(counts) => u64::from(counts.bases) + 4294967296 * u64::from(counts.cells),
        Err(stop) => refused(stop),
    }
}

// Looks up a cell: 1 with its sum, its count and its entry's number stored, or 0 for 'no record'.
#[unsafe(no_mangle)]
pub extern "C" fn cube_look_up(
    archive: &[u8],
    question: &[u32],
    sum: &mut [i64; 1],
    count: &mut [u32; 1],
    entry: &mut [u32; 1],
) -> u64
    ensures value { result ≡ found_number (looks_up archive.now question.now) }
    ensures sum_after { sum.new ≡ sum_left (looks_up archive.now question.now) sum.old }
    ensures count_after { (count.new ≡ count_left (looks_up archive.now question.now) count.old) × (entry.new ≡ entry_left (looks_up archive.now question.now) entry.old) }
{
    match call_look::look_up(archive, question) {
        Ok(Some(cell)) => {
            sum[0] = cell.sum;
            count[0] = cell.count;
            entry[0] = cell.entry;
            1
        }
        Ok(None) => 0,
        Err(stop) => refused(stop),
    }
}

// Lists the cuboid of a set: the length written.
#[unsafe(no_mangle)]
pub extern "C" fn cube_list_cuboid(archive: &[u8], set: u32, out: &mut [u8]) -> u64
    ensures value { result ≡ written_number (answer_of (within (length out.old) (lists_cuboid archive.now set))) }
    ensures out_after { out.new ≡ left_of (within (length out.old) (lists_cuboid archive.now set)) out.old }
{
    number(call_ask::list_cuboid(archive, set, out))
}

// Expands an archive to the complete cube: the length written.
#[unsafe(no_mangle)]
pub extern "C" fn cube_expand(archive: &[u8], out: &mut [u8]) -> u64
    ensures value { result ≡ written_number (answer_of (within (length out.old) (expands archive.now))) }
    ensures out_after { out.new ≡ left_of (within (length out.old) (expands archive.now)) out.old }
{
    number(call_ask::expand(archive, out))
}

// Lists the smallest keys of an archive: the length written.
#[unsafe(no_mangle)]
pub extern "C" fn cube_smallest_keys(archive: &[u8], out: &mut [u8]) -> u64
    ensures value { result ≡ written_number (answer_of (within (length out.old) (lists_keys archive.now))) }
    ensures out_after { out.new ≡ left_of (within (length out.old) (lists_keys archive.now)) out.old }
{
    number(call_keys::smallest_keys(archive, out))
}

// Whether a set fixes a dimension: 1 for yes, 0 for no.
#[unsafe(no_mangle)]
pub extern "C" fn cube_fixes(archive: &[u8], set: u32, dimension: u32) -> u64
    ensures { result ≡ fixed_number (tells_fixed archive.now set dimension) }
{
    match call_fixes::fixes(archive, set, dimension) {
        Ok(fixed) => u64::from(fixed),
        Err(why) => refused(why),
    }
}

// Shares a fee in cents over the cells of a set: the length written.
#[unsafe(no_mangle)]
pub extern "C" fn cube_share_fee(archive: &[u8], fee: u32, set: u32, out: &mut [u8]) -> u64
    ensures value { result ≡ written_number (answer_of (within (length out.old) (shares_fee archive.now fee set))) }
    ensures out_after { out.new ≡ left_of (within (length out.old) (shares_fee archive.now fee set)) out.old }
{
    number(call_fee::share_fee(archive, fee, set, out))
}

// Joins two archives: the length written.
#[unsafe(no_mangle)]
pub extern "C" fn cube_join(first: &[u8], second: &[u8], out: &mut [u8]) -> u64
    ensures value { result ≡ written_number (answer_of (within (length out.old) (joins first.now second.now))) }
    ensures out_after { out.new ≡ left_of (within (length out.old) (joins first.now second.now)) out.old }
{
    number(call_join::join(first, second, out))
}

// Adds a record to an archive: the length written.
#[unsafe(no_mangle)]
pub extern "C" fn cube_add(archive: &[u8], codes: &[u32], reading: i32, out: &mut [u8]) -> u64
    ensures value { result ≡ written_number (answer_of (within (length out.old) (adds archive.now codes.now reading))) }
    ensures out_after { out.new ≡ left_of (within (length out.old) (adds archive.now codes.now reading)) out.old }
{
    number(call_add::add(archive, codes, reading, out))
}

// Looks up a cell through a window: 1 with its sum and its count stored, or 0 for 'no record'.
#[unsafe(no_mangle)]
pub extern "C" fn cube_window(
    archive: &[u8],
    dimension: u32,
    code: u32,
    question: &[u32],
    sum: &mut [i64; 1],
    count: &mut [u32; 1],
) -> u64
    ensures value { result ≡ seen_number (asks_window archive.now dimension code question.now) }
    ensures sum_after { (sum.new ≡ seen_sum_left (asks_window archive.now dimension code question.now) sum.old) × (count.new ≡ seen_count_left (asks_window archive.now dimension code question.now) count.old) }
{
    match call_window::window(archive, dimension, code, question) {
        Ok(Some(total)) => {
            sum[0] = total.sum;
            count[0] = total.count;
            1
        }
        Ok(None) => 0,
        Err(stop) => refused(stop),
    }
}
