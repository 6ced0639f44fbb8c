//! A set of pages, as bits: page `p` is bit `p % 64` of word `p / 64`.
ghost use Rattle.std.specs.Prelude.{◌≡◌, ℕ, ◌*◌, ◌<◌, ◌≤◌, ◌⊎◌, MatchOption, length, true, false};
ghost use Rattle.backend_fit.specs.Bits.{has, HasNone, IsFirstIn};

/// The first page of the set from one page up to another. It looks at a word of 64 pages at a time.
pub(crate) fn first_in(bits: &[u64], from: u32, to: u32) -> Option<u32>
    requires few { length bits.now ≤ 64 }
    requires inside { to ≤ 64 * length bits.now }
    ensures { MatchOption result (HasNone bits.now from to) (IsFirstIn bits.now from to) }
{
    if from >= to {
        return None;
    }
    let mut index = from / 64;
    let mut word = bits[index as usize] & (u64::MAX << (from % 64));
    while word == 0 {
        index += 1;
        if 64 * index >= to {
            return None;
        }
        word = bits[index as usize];
    }
    let page = 64 * index + word.trailing_zeros();
    if page < to { Some(page) } else { None }
}

/// Puts a page into the set.
pub(crate) fn insert(bits: &mut [u64], page: u32)
    requires { page < 64 * length bits.old }
    ensures there { has bits.new page ≡ true }
    ensures others { (other : ℕ) → (other ≡ page → ⊥) → has bits.new other ≡ has bits.old other }
{
    bits[(page / 64) as usize] |= 1 << (page % 64);
}

/// Takes a page out of the set.
fn remove(bits: &mut [u64], page: u32)
    requires { page < 64 * length bits.old }
    ensures gone { has bits.new page ≡ false }
    ensures others { (other : ℕ) → (other ≡ page → ⊥) → has bits.new other ≡ has bits.old other }
{
    bits[(page / 64) as usize] &= !(1 << (page % 64));
}

/// Takes the pages from one up to another out of the set.
pub(crate) fn clear(bits: &mut [u64], from: u32, to: u32)
    requires few { length bits.old ≤ 64 }
    requires inside { to ≤ 64 * length bits.old }
    ensures none { HasNone bits.new from to }
    ensures others { (page : ℕ) → (page < from) ⊎ (to ≤ page) → has bits.new page ≡ has bits.old page }
{
    let mut at = from;
    while let Some(page) = first_in(bits, at, to) {
        remove(bits, page);
        at = page + 1;
    }
}
