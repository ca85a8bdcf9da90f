// A fee's shares as fields, written over the front of lent bytes.
#![tactic(auto)]

ghost use Rattle.std.specs.Prelude.{◌≡◌, ◌≤◌, length};
ghost use Rattle.fields.specs.Written.{Wrote};
ghost use Rattle.fee_list.specs.Listed.{fee_bytes};

use fee_shares::Fee;

// Shares a fee by counts over a lent list, and writes the shares.
fn put_shares(out: &mut [u8], fee: &Fee, shares: &mut [u32]) -> usize
    requires shares_len { length shares.old ≡ length fee.now.counts.now }
    requires room { length (fee_bytes fee.now.cents fee.now.counts.now) ≤ length out.old }
    ensures { Wrote (fee_bytes fee.now.cents fee.now.counts.now) out.old out.new result }
{
    fee_shares::share_fee(fee, shares);
    archive_cells::put_list(out, shares)
}

// Shares a fee by the counts of a cuboid's cells: the number of cells, then each cell's cents.
pub fn put_fee(out: &mut [u8], fee: &Fee) -> usize
    requires { length (fee_bytes fee.now.cents fee.now.counts.now) ≤ length out.old }
    ensures { Wrote (fee_bytes fee.now.cents fee.now.counts.now) out.old out.new result }
{
    let mut shares = [0u32; 1024];
    put_shares(out, fee, &mut shares[..fee.counts.len()])
}
