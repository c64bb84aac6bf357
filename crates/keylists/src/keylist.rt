// What is known of a list of numbers, one number at a time.
ghost use Rattle.std.specs.Prelude.{◌≡◌, List, [], ◌∷◌, ◌++◌, ℕ, ◌≤◌, ◌<◌, set};
ghost use Rattle.graph.specs.KeyLists.{is_key};
ghost use Rattle.graph.specs.Refused.{answered};
ghost use Rattle.keylists.specs.Inner.ListsRead.{KeysOf, keys_named};

use graph::keys::Keys;
use graph::refusal::Refusal;

// What is known of the numbers so far: how many (9 for more than eight), the last, whether all are keys, whether they rise
// strictly; and the keys, where they are at most eight.
#[derive(Clone, Copy)]
pub struct KeyList {
    pub count: u8,
    pub latest: u32,
    pub keys: bool,
    pub rising: bool,
    pub key: [u8; 8],
}

// 1 to 64.
pub fn is_key(v: u32) -> bool
    ensures { result ≡ is_key v }
{
    1 <= v && v <= 64
}

// The array with `v` at `n`, where there is such a place and `v` may be a key.
pub fn store(mut key: [u8; 8], n: u8, v: u32) -> [u8; 8]
    ensures { n < 8 → v ≤ 64 → result ≡ set key n v }
{
    if n < 8 && v <= 64 {
        key[usize::from(n)] = v as u8;
    }
    key
}

impl KeyList {
    // No number yet.
    pub fn none() -> Self
        ensures { KeysOf [] result }
    {
        KeyList {
            count: 0,
            latest: 0,
            keys: true,
            rising: true,
            key: [0; 8],
        }
    }

    // With one number more.
    pub fn with(self, v: u32) -> Self
        ensures { (ts : List ℕ) → KeysOf ts self → KeysOf (ts ++ v ∷ []) result }
    {
        let key = self.key;
        let key = store(key, self.count, v);
        KeyList {
            count: self.count.saturating_add(1).min(9),
            latest: v,
            keys: self.keys & is_key(v),
            rising: self.rising & (self.latest < v),
            key,
        }
    }

    // The targets that a line names so: 11 where one is no key, 12 where they are more than eight or do not rise strictly.
    pub fn targets(self) -> Result<Keys, Refusal>
        ensures { (ts : List ℕ) → KeysOf ts self → answered (λ k. k) result ≡ keys_named ts }
    {
        if !self.keys {
            return Err(Refusal::NotAKey);
        }
        if 8 < self.count || !self.rising {
            return Err(Refusal::BadTargets);
        }
        let key = self.key;
        Ok(Keys {
            count: self.count,
            key,
        })
    }
}
