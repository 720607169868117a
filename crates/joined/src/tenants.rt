// The places of the second net's rows in the joined net.
ghost use Rattle.std.specs.Prelude.{◌≡◌, true, ◌&&◌, ℕ, ◌*◌, ◌≤◌, ◌<◌, ltb, leb, length, get_or};
ghost use Rattle.base.specs.Lists.{filter, all, distinct};
ghost use Rattle.matrix.specs.Limits.{max_rows};
ghost use Rattle.joined.specs.Code.Rows.{tenant_of};

use matrix::limits::MAX_ROWS;

// How many numbers of a list are n or more.
pub(crate) fn count_from(list: &[u32], n: usize) -> usize
    ensures { result ≡ length (filter (leb n) list.now) }
{
    let mut count: usize = 0;
    for p in list {
        if n <= *p as usize {
            count += 1;
        }
    }
    count
}

// Whether the numbers of a list are distinct and below n; if so, the tenant of each.
pub(crate) fn put_tenants(list: &[u32], n: usize, tenants: &mut [u32; 2 * MAX_ROWS]) -> bool
    requires { (n ≤ 2 * max_rows) × (length list.now ≤ max_rows) × (length tenants.old ≡ 2 * max_rows) × ((c : ℕ) → get_or tenants.old c 0 ≡ 0) }
    ensures test { result ≡ distinct list.now && all (λ p. ltb p n) list.now }
    ensures tenants { result ≡ true → (c : ℕ) → get_or tenants.new c 0 ≡ tenant_of list.now c }
{
    for k in 0..list.len() {
        let p = list[k] as usize;
        if n <= p {
            return false;
        }
        if tenants[p] != 0 {
            return false;
        }
        tenants[p] = (k + 1) as u32;
    }
    true
}
