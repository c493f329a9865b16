ghost use Rattle.std.specs.Prelude.{◌≡◌, length, replicate, None};
ghost use Rattle.rules.specs.Rules.{arity_of};
ghost use Rattle.rules.specs.Results.{Done};
ghost use Rattle.book.specs.Drafts.{declaring};

use facts::Kind;
use records::fault::Fault;

/// Which kinds are declared, with their arities.
#[derive(Clone, Copy)]
pub struct Kinds {
    arities: [Option<u8>; 32],
    ghost whole: { length arities ≡ 32 },
}

impl Kinds {
    /// No kind is declared.
    pub fn none() -> Kinds
        ensures value { result.arities ≡ replicate 32 None }
    {
        Kinds {
            arities: [None; 32],
        }
    }

    /// The arity of a declared kind.
    pub fn arity(&self, kind: Kind) -> Option<u8>
        ensures value { result ≡ arity_of self.now.arities kind }
    {
        self.arities.get(kind as usize).copied().flatten()
    }

    /// Declares a kind; refused where it was declared before.
    pub fn declare(&mut self, kind: Kind, arity: u8) -> Result<(), Fault>
        ensures done { Done (declaring self.old.arities kind arity) self.old.arities result self.new.arities }
    {
        // Kept as a test and an index: of an array `get_mut` says how long it stays, and nothing of its items.
        if kind as usize >= self.arities.len() {
            return Err(Fault::OutOfRange);
        }
        if self.arity(kind).is_some() {
            return Err(Fault::DeclaredTwice);
        }
        self.arities[kind as usize] = Some(arity);
        Ok(())
    }
}
