//! Files that are read by name.
ghost use Rattle.std.specs.Prelude.{◌≡◌, ◌^◌, ◌<◌, ◌≤◌, [], ◌∷◌, ◌++◌, None, Some, length, IsSome, IfSome, IfOk, IfErr, OnOk};
ghost use Rattle.std.specs.Prelude.{};
ghost use Rattle.base_io.specs.Told.{IsPresent};
ghost use Rattle.base_io.specs.Store.{StoreState, StartFails, ReadFails, AreNext, moved, place_of, rest_of};

/// Why a store refuses.
#[derive(Clone, Copy, Debug, PartialEq, Eq)]
pub enum StoreFail {
    /// The store failed, and counted it. No file is current now.
    Failed,
    /// There was no memory for the name: nothing changed.
    Memory,
}

/// Files that are read by name, each from its first byte on.
///
/// Contracts see which names were asked, which file is current and where in it the next byte is, where in the file that was
/// started last `read` was asked last, and a count of failures, which is a `u64` and never falls.
/// A store may tell of a name what its file holds, or that there is no
/// such file. No call changes that.
pub trait Store {
    ghost store_state: { Self → StoreState };

    /// Makes the file of this name current, at its first byte.
    ///
    /// A file that is told to be absent isn't started. The name is added to the names asked, also after `Failed`,
    /// where no file is current and the count rose. After `Memory` all is as it was.
    fn start(&mut self, name: &str) -> Result<(), StoreFail>
        ensures contents { (store_state self.new).contents ≡ (store_state self.old).contents }
        ensures later { (store_state self.old).failures ≤ (store_state self.new).failures }
        ensures count { (store_state self.new).failures < 2 ^ 64 }
        ensures opened { OnOk result ((store_state self.new).current ≡ Some (record { name = name.now; at = 0 })) }
        ensures asked { OnOk result ((store_state self.new).asked ≡ (store_state self.old).asked ++ name.now ∷ []) }
        ensures unread { OnOk result ((store_state self.new).read_at ≡ None) }
        ensures present { OnOk result (IsPresent ((store_state self.old).contents name.now)) }
        ensures refused { IfErr result (λ e. StartFails e name.now (store_state self.old) (store_state self.new)) };

    /// Reads the next bytes of the current file to the front of `into`, and gives their number. Whatever it answers, contracts
    /// see from where on it was asked.
    ///
    /// It is 0 at the end of the file, and only there where the contents are told. After `Failed`, the only refusal, no file is
    /// current, the count rose and `into` is as it was. Takes no memory.
    fn read(&mut self, into: &mut [u8]) -> Result<usize, StoreFail>
        requires room { 0 < length into.old }
        requires open { IsSome (store_state self.old).current }

        ensures contents { (store_state self.new).contents ≡ (store_state self.old).contents }
        ensures later { (store_state self.old).failures ≤ (store_state self.new).failures }
        ensures count { (store_state self.new).failures < 2 ^ 64 }
        ensures asked { (store_state self.new).asked ≡ (store_state self.old).asked }
        ensures asked_at { (store_state self.new).read_at ≡ place_of (store_state self.old) }
        ensures room { IfOk result (λ n. n ≤ length into.new) }
        ensures place { IfOk result (λ n. (store_state self.new).current ≡ moved (store_state self.old).current n) }
        ensures bytes { IfOk result (λ n. IfSome (rest_of (store_state self.old)) (AreNext n into.new)) }
        ensures kept { IfErr result (λ _. into.new ≡ into.old) }
        ensures refused { IfErr result (λ e. ReadFails e (store_state self.old) (store_state self.new)) };
}
