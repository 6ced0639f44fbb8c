// The numbers of names.
ghost use Rattle.std.specs.Prelude.{◌≡◌, ℕ, ◌+◌, ◌^◌, ◌<◌, ◌≤◌, true, List, [], ◌∷◌, ◌++◌, length, is_some, Some, IfOk, if◌then◌else◌};
ghost use Rattle.std.specs.Option.{unwrap_or};
ghost use Rattle.std.specs.BTreeMap.{btree_map_len, get, Updates};
ghost use Rattle.script_text.specs.Words.{is_name};
ghost use Rattle.script_text.specs.Keys.{packed, key_of, key_cmp};
ghost use Rattle.script_text.specs.Names.{AreNumbered, number_of_name};

use std::alloc::{AllocError, Global};
use std::collections::BTreeMap;

/// A name's bytes as two numbers, of its first 16 bytes and of the others. They compare faster than the bytes.
type Key = (u128, u128);

/// The names that stood so far in a text, each with its number.
#[derive(Drop)]
pub struct Names {
    numbers: BTreeMap<Key, u32>,
}

impl Names {
    pub fn new(alloc: Global) -> Self
        ensures { AreNumbered result.numbers [] }
    {
        Names {
            numbers: BTreeMap::new(alloc),
        }
    }

    /// How many names there are.
    pub fn count(&self) -> usize
        ensures { result ≡ btree_map_len self.now.numbers }
    {
        self.numbers.len()
    }

    /// The number of a name that stands next in the text.
    pub fn number(&mut self, name: &[u8]) -> Result<u32, AllocError>
        requires named { is_name name.now ≡ true }
        requires few { btree_map_len self.old.numbers < 2 ^ 32 }
        ensures numbered { IfOk result (λ n. (names : List (List ℕ)) → AreNumbered self.old.numbers names →
            AreNumbered self.new.numbers (names ++ name.now ∷ [])) }
        ensures number { IfOk result (λ n. (names : List (List ℕ)) → AreNumbered self.old.numbers names →
            n ≡ number_of_name (names ++ name.now ∷ []) name.now) }
        ensures count { btree_map_len self.new.numbers ≤ btree_map_len self.old.numbers + 1 }
    {
        enter(&mut self.numbers, key_of(name))
    }
}

/// The number of a key, which is the next one where the key is new.
fn enter(numbers: &mut BTreeMap<Key, u32>, key: Key) -> Result<u32, AllocError>
    requires { btree_map_len numbers.old < 2 ^ 32 }
    ensures number { IfOk result (λ n. n ≡ unwrap_or (get key_cmp numbers.old key) (btree_map_len numbers.old)) }
    ensures update { IfOk result (λ n. Updates key_cmp numbers.old numbers.new key (Some n)) }
    ensures len { IfOk result (λ _. btree_map_len numbers.new ≡ btree_map_len numbers.old + (if is_some (get key_cmp numbers.old key) then 0 else 1)) }
    ensures count { btree_map_len numbers.new ≤ btree_map_len numbers.old + 1 }
{
    let next = numbers.len() as u32;
    let number = numbers.entry(key)?.or_insert(next);
    Ok(*number)
}

fn key_of(name: &[u8]) -> Key
    requires { length name.now ≤ 32 }
    ensures { result ≡ key_of name.now }
{
    let (front, behind) = name.split_at(name.len().min(16));
    (packed(front), packed(behind))
}

fn packed(bytes: &[u8]) -> u128
    requires { length bytes.now ≤ 16 }
    ensures { result ≡ packed bytes.now }
{
    let mut value = 0u128;
    let mut left = bytes.len();
    while left > 0 {
        left -= 1;
        value = value * 256 + u128::from(bytes[left]);
    }
    value
}
