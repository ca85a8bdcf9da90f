// A fee shared by weights: each cell's rounded-down proportion, and the cents left one each to the largest remainders.
#![tactic(auto)]

ghost use Rattle.std.specs.Prelude.{◌≡◌, map, ◌-◌, ◌≤◌, ◌<◌, eqb, leb, length};
ghost use Rattle.lists.specs.Lists.{sum};
ghost use Rattle.fee_shares.specs.Shares.{count as count_of, quota as quotaOf, rest as rest_of, cent, added, shares as shares_of};
ghost use Rattle.fee_shares.specs.Given.{Threshold, Low, gets, given};

// A fee in cents, and the counts by which it is shared.
#[derive(Drop)]
pub struct Fee<'a> {
    pub cents: u64,
    pub counts: &'a [u32],
    ghost small: { cents ≤ 1000000000 },
    ghost few: { length counts.now ≤ 1024 },
    ghost some: { 0 < sum counts.now },
    ghost bounded: { sum counts.now ≤ 1048576 },
}

// The total of a list.
pub fn total_of(list: &[u32]) -> u64
    requires { length list.now ≤ 1024 }
    ensures { result ≡ sum list.now }
{
    list.iter().map(|n| u64::from(*n)).sum()
}

// A cell's rounded-down proportion.
fn quota(fee: u64, count: u32, total: u64) -> u32
    requires { (fee ≤ 1000000000) × (count ≤ total) × (0 < total) × (total ≤ 1048576) }
    ensures { (result ≡ quotaOf total fee count) × (result ≤ 1000000000) }
{
    (fee * u64::from(count) / total) as u32
}

// Its remainder.
fn rest(fee: u64, count: u32, total: u64) -> u32
    requires { (fee ≤ 1000000000) × (count ≤ total) × (0 < total) × (total ≤ 1048576) }
    ensures { result ≡ rest_of total fee count }
{
    (fee * u64::from(count) % total) as u32
}

// Each cell's rounded-down proportion and its remainder, over the lists that are lent.
fn divide(fee: &Fee, total: u64, shares: &mut [u32], rests: &mut [u32])
    requires total { total ≡ sum fee.now.counts.now }
    requires shares_len { (length shares.old ≡ length fee.now.counts.now) × (length rests.old ≡ length fee.now.counts.now) }
    ensures shares_after { (shares.new ≡ map (quotaOf total fee.now.cents) fee.now.counts.now) × (rests.new ≡ map (rest_of total fee.now.cents) fee.now.counts.now) }
    ensures low { Low shares.new }
{
    for (i, &count) in fee.counts.iter().enumerate() {
        shares[i] = quota(fee.cents, count, total);
        rests[i] = rest(fee.cents, count, total);
    }
}

// How many remainders are at least v.
fn at_least(rests: &[u32], v: u32) -> u64
    ensures { result ≡ count_of (leb v) rests.now }
{
    rests.iter().filter(|r| v <= **r).count() as u64
}

// A threshold for m cents, found by halving among the values: there is no slice of them to search.
fn threshold(rests: &[u32], total: u32, m: u64) -> u32
    requires { (0 < total) × (m ≤ length rests.now) × (count_of (leb total) rests.now ≤ m) }
    ensures { Threshold result m rests.now × (result < total) }
{
    let mut low = 0;
    let mut high = total;
    while low + 1 < high {
        let mid = low + (high - low) / 2;
        if m <= at_least(rests, mid) {
            low = mid;
        } else {
            high = mid;
        }
    }
    low
}

// The cent of a cell with remainder r, where k cents are left for those with remainder v.
fn cent_of(v: u32, k: u64, r: u32) -> u32
    ensures { result ≡ cent (gets v k r) }
{
    u32::from(v < r || (v == r && 0 < k))
}

// How many are left after it.
fn cents_after(v: u32, k: u64, r: u32) -> u64
    ensures { result ≡ k - cent (eqb v r) }
{
    k.saturating_sub(u64::from(v == r))
}

// Gives a cent to each remainder above v, and to the first k of those that are v.
fn give(rests: &[u32], v: u32, k: u64, shares: &mut [u32])
    requires { (length shares.old ≡ length rests.now) × Low shares.old }
    ensures { shares.new ≡ added shares.old (given v k rests.now) }
{
    let mut left = k;
    for (i, &r) in rests.iter().enumerate() {
        shares[i] += cent_of(v, left, r);
        left = cents_after(v, left, r);
    }
}

// Each cell's whole cents, over the list that is lent; the remainders go over another.
fn share_by(fee: &Fee, shares: &mut [u32], rests: &mut [u32])
    requires { (length shares.old ≡ length fee.now.counts.now) × (length rests.old ≡ length fee.now.counts.now) }
    ensures { shares.new ≡ shares_of fee.now.cents fee.now.counts.now }
{
    let total = total_of(fee.counts);
    divide(fee, total, shares, rests);
    let left = fee.cents - total_of(shares);
    let v = threshold(rests, total as u32, left);
    let above = at_least(rests, v + 1);
    give(rests, v, left - above, shares);
}

// Each cell's whole cents of a fee that is shared by the cells' counts, over the list that is lent.
pub fn share_fee(fee: &Fee, shares: &mut [u32])
    requires { length shares.old ≡ length fee.now.counts.now }
    ensures { shares.new ≡ shares_of fee.now.cents fee.now.counts.now }
{
    let mut rests = [0u32; 1024];
    share_by(fee, shares, &mut rests[..fee.counts.len()]);
}
