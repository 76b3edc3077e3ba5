//! Sources of files.

ghost use Rattle.std.specs.Prelude.{◌≡◌, ℕ, List, [], ◌∷◌, Option, None, IfOk, IfSome};
ghost use Rattle.s161_base.specs.Asked.{Asks};

use crate::input::read_whole;
use std::alloc::Global;
use std::fs::File;
use std::io;
use std::rt::Files;

/// A source of files.
pub trait FileSource {
    // The bytes of the file of a name, if they are known.
    ghost known: { Self → List ℕ → Option (List ℕ) } = { λ _ _. None };

    // The names that files were asked for by, in order, if they are known.
    ghost asked: { Self → Option (List (List ℕ)) } = { λ _. None };

    /// The bytes of the file of this name.
    fn read(&mut self, alloc: Global, name: &str) -> io::Result<Vec<u8>>
        ensures whole { IfOk result (λ bytes. IfSome (known self.old name.now) (λ file.
            bytes.items ≡ file)) }
        ensures still { (other : List ℕ) → known self.new other ≡ known self.old other }
        ensures asks { Asks (name.now ∷ []) (asked self.old) (asked self.new) };
}

/// The files of the host.
#[derive(Drop)]
pub struct HostFiles<'a, R: Files + AllocGlobal> {
    rt: &'a R,
}

impl<'a, R: Files + AllocGlobal> HostFiles<'a, R> {
    /// The files of this host.
    pub fn new(rt: &'a R) -> HostFiles<'a, R> {
        HostFiles { rt }
    }
}

impl<R: Files + AllocGlobal> FileSource for HostFiles<'_, R> {
    fn read(&mut self, alloc: Global, name: &str) -> io::Result<Vec<u8>> {
        read_whole(alloc, &mut File::open(self.rt, name)?)
    }
}
