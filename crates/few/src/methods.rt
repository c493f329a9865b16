ghost use Rattle.std.specs.Prelude.{◌≡◌, ◌↔◌, ◌<◌, [], ◌∷◌, ◌++◌, length, is_ok, if◌then◌else◌, nat_lt, IsSome};
ghost use Rattle.std.specs.Option.{option_to_list};
ghost use Rattle.few.specs.Few.{listed};

use crate::{Few, Full};

impl<T: Copy, const N: usize> Few<T, N> {
    /// The empty list; `blank` stands in the places until they are taken.
    pub fn none(blank: T) -> Few<T, N>
        ensures items { listed result ≡ [] }
    {
        Few {
            items: [blank; N],
            len: 0,
        }
    }

    /// How many items there are.
    pub fn len(&self) -> usize
        ensures value { result ≡ length (listed self.now) }
    {
        self.len
    }

    /// The items.
    pub fn as_slice(&self) -> &[T]
        ensures value { result.now ≡ listed self.now }
    {
        &self.items[..self.len]
    }

    /// One item more, at the end; refused exactly when there are N.
    pub fn push(&mut self, x: T) -> Result<(), Full>
        ensures items { listed self.new ≡ (if is_ok result then listed self.old ++ x ∷ [] else listed self.old) }
        ensures test { is_ok result ≡ nat_lt (length (listed self.old)) N }
    {
        if self.len >= N {
            return Err(Full);
        }
        self.items[self.len] = x;
        self.len += 1;
        Ok(())
    }

    /// Takes the last item off and gives it, or says that there is none.
    pub fn pop(&mut self) -> Option<T>
        ensures items { listed self.old ≡ listed self.new ++ option_to_list result }
        ensures variant { IsSome result ↔ (0 < length (listed self.old)) }
    {
        self.len = self.len.checked_sub(1)?;
        Some(self.items[self.len])
    }
}
