// A list of numbers parted by commas, read byte by byte. Its bytes may come in pieces, and none of them is kept.
ghost use Rattle.std.specs.Prelude.{List, [], ◌∷◌, ◌++◌, ℕ, ◌≤◌, Some};
ghost use Rattle.keylists.specs.Inner.ListsRead.{KeysRead, ReadSoFar};

use crate::keylist::KeyList;

// What is known of bytes that a list may begin with: `list` tells of the numbers that have a comma behind them, and `number`
// is what the digits after the last comma make, where there are any.
#[derive(Clone, Copy)]
pub struct ListSoFar {
    pub list: KeyList,
    pub number: Option<u32>,
}

impl ListSoFar {
    // No byte yet.
    pub fn none() -> Self
        ensures { ReadSoFar [] (Some result) }
    {
        ListSoFar {
            list: KeyList::none(),
            number: None,
        }
    }

    // The number that has begun ends. None: no list begins so, whatever follows.
    fn with_comma(self) -> Option<Self>
        ensures { (s : List ℕ) → ReadSoFar s (Some self) → ReadSoFar (s ++ 44 ∷ []) result }
    {
        Some(ListSoFar {
            list: self.list.with(self.number?),
            number: None,
        })
    }

    // A number begins, or goes on: no zero stands before another digit, and no number is above 4,294,967,295.
    fn with_digit(self, b: u8) -> Option<Self>
        requires { (48 ≤ b) × (b ≤ 57) }
        ensures { (s : List ℕ) → ReadSoFar s (Some self) → ReadSoFar (s ++ b ∷ []) result }
    {
        let digit = u32::from(b - b'0');
        let number = match self.number {
            None => digit,
            Some(0) => return None,
            Some(v) => v.checked_mul(10)?.checked_add(digit)?,
        };
        Some(ListSoFar {
            list: self.list,
            number: Some(number),
        })
    }

    // With one byte more.
    fn with_byte(self, b: u8) -> Option<Self>
        ensures { (s : List ℕ) → ReadSoFar s (Some self) → ReadSoFar (s ++ b ∷ []) result }
    {
        if b == b',' {
            self.with_comma()
        } else if b.is_ascii_digit() {
            self.with_digit(b)
        } else {
            None
        }
    }

    // With the bytes of a piece.
    pub fn with_bytes(self, piece: &[u8]) -> Option<Self>
        ensures { (s : List ℕ) → ReadSoFar s (Some self) → ReadSoFar (s ++ piece.now) result }
    {
        let mut f = self;
        for &b in piece {
            f = f.with_byte(b)?;
        }
        Some(f)
    }

    // The list, where these are all its bytes: the last number has no comma behind it.
    pub fn ended(self) -> Option<KeyList>
        ensures { (s : List ℕ) → ReadSoFar s (Some self) → KeysRead s result }
    {
        match self.number {
            Some(v) => Some(self.list.with(v)),
            None if self.list.count == 0 => Some(self.list),
            None => None,
        }
    }
}

// The numbers that the whole of `s` holds, parted by commas; none where it is empty.
pub fn read_keys(s: &[u8]) -> Option<KeyList>
    ensures { KeysRead s.now result }
{
    ListSoFar::none().with_bytes(s)?.ended()
}
