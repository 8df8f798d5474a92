//! What joins calls on a disk that come one after another. The functions do nothing: each says a law.
//!
//! A clause can't speak of every state and every predicate, so the laws are said of a disk's own states and of tests
//! on bytes. They are instances of the facts that `specs/Runs.antt` and `specs/Others.antt` prove of all, which proofs in crates
//! above cite.

ghost use Rattle.std.specs.Prelude.{◌≡◌, ◌≢◌, ℕ, List, [], Vec, Bool, IsTrue};
ghost use Rattle.std.specs.declared.alloc.Global.{Global};
ghost use Rattle.porch_edge.specs.Moments.{one_byte, IsAdmitted, IsLeft};
ghost use Rattle.std.specs.declared.result.Result.{Result};
ghost use Rattle.porch_edge.specs.declared.disk.FileName.{FileName};
ghost use Rattle.porch_edge.specs.declared.failed.Failed.{Failed};
ghost use Rattle.porch_edge.specs.Files.{Files, no_files, file_of, Shortened, Marred};
ghost use Rattle.porch_edge.specs.Disk.{WhereTold, LenStep, ReadStep, WriteStep, CutStep, SyncStep, TornWrite, IsSettled, HasFront, OnlyLooks, HasNow, SparesOne};
ghost use Rattle.porch_edge.specs.Runs.{KeepsPassing, TouchesPassing};

use crate::Disk;

/// A length, a read and a sync change nothing, whatever they answer: reads give the same, and a crash leaves nothing
/// that it couldn't leave before.
pub fn calls_look<D: Disk>()
    ensures len { (s t : D) (file : FileName) (r : Result ℕ Failed)
        → LenStep (D.state s) (D.state t) file r → OnlyLooks (D.state s) (D.state t) }
    ensures read { (s t : D) (file : FileName) (at : ℕ) (before after : List ℕ)
        (r : Result ℕ Failed)
        → ReadStep (D.state s) (D.state t) file at before after r
        → OnlyLooks (D.state s) (D.state t) }
    ensures sync { (s t : D) (file : FileName) (r : Result (Unit {0}) Failed)
        → SyncStep (D.state s) (D.state t) file r → OnlyLooks (D.state s) (D.state t) }
{}

/// Two runs of calls that change nothing are one.
pub fn looks_join<D: Disk>()
    ensures { (s t u : D) → OnlyLooks (D.state s) (D.state t) → OnlyLooks (D.state t) (D.state u)
        → OnlyLooks (D.state s) (D.state u) }
{}

/// Two changes of one file are one, and nothing is pending after it.
pub fn changes_join<D: Disk>()
    ensures joined { (s t u : D) (file : FileName) (g h : List ℕ → List ℕ)
        → HasNow (D.state s) (D.state t) file g → HasNow (D.state t) (D.state u) file h
        → HasNow (D.state s) (D.state u) file (λ old. h (g old)) }
    ensures settled { (s t : D) (file : FileName) (g : List ℕ → List ℕ)
        → HasNow (D.state s) (D.state t) file g → IsSettled (D.state t) file }
{}

/// No call is a run on a file in which nothing is pending: a crash leaves its old bytes.
pub fn runs_begin<D: Disk>()
    ensures { (s : D) (file : FileName) (test : List ℕ → List ℕ → Bool)
        → ((old : List ℕ) → IsTrue (test old old)) → IsSettled (D.state s) file
        → TouchesPassing (D.state s) (D.state s) file test }
{}

/// A run on a file goes on by one call. At each moment a crash leaves bytes that pass the test, if each call turns
/// bytes that pass it into bytes that do.
pub fn runs_go_on<D: Disk>()
    ensures len { (s t u : D) (file : FileName) (test : List ℕ → List ℕ → Bool)
        (r : Result ℕ Failed)
        → TouchesPassing (D.state s) (D.state t) file test
        → LenStep (D.state t) (D.state u) file r
        → TouchesPassing (D.state s) (D.state u) file test }
    ensures read { (s t u : D) (file : FileName) (test : List ℕ → List ℕ → Bool)
        (at : ℕ) (before after : List ℕ) (r : Result ℕ Failed)
        → TouchesPassing (D.state s) (D.state t) file test
        → ReadStep (D.state t) (D.state u) file at before after r
        → TouchesPassing (D.state s) (D.state u) file test }
    ensures write { (s t u : D) (file : FileName) (test : List ℕ → List ℕ → Bool)
        (at : ℕ) (bytes : List ℕ) (r : Result (Unit {0}) Failed)
        → ((now : List ℕ) → KeepsPassing test (TornWrite now at bytes))
        → TouchesPassing (D.state s) (D.state t) file test
        → WriteStep (D.state t) (D.state u) file at bytes r
        → TouchesPassing (D.state s) (D.state u) file test }
    ensures cut { (s t u : D) (file : FileName) (test : List ℕ → List ℕ → Bool)
        (len : ℕ) (r : Result (Unit {0}) Failed)
        → KeepsPassing test (Shortened len) → KeepsPassing test (Marred len)
        → TouchesPassing (D.state s) (D.state t) file test
        → CutStep (D.state t) (D.state u) file len r
        → TouchesPassing (D.state s) (D.state u) file test }
    ensures sync { (s t u : D) (file : FileName) (test : List ℕ → List ℕ → Bool)
        (r : Result (Unit {0}) Failed)
        → TouchesPassing (D.state s) (D.state t) file test → SyncStep (D.state t) (D.state u) file r
        → TouchesPassing (D.state s) (D.state u) file test }
{}

/// Two runs on one file are one, if what the second says of the bytes is enough whatever the old ones were.
pub fn runs_join<D: Disk>()
    ensures { (s t u : D) (file : FileName) (test : List ℕ → List ℕ → Bool) (holds : List ℕ → Bool)
        → ((old x : List ℕ) → IsTrue (holds x) → IsTrue (test old x))
        → TouchesPassing (D.state s) (D.state t) file test
        → TouchesPassing (D.state t) (D.state u) file (λ _ x. holds x)
        → TouchesPassing (D.state s) (D.state u) file test }
{}

/// A call that changes nothing spares each file, and a write or a cut each other one: reads give of it what they gave,
/// and at each moment a crash leaves of it what it might leave before. So do runs of such calls.
pub fn calls_spare<D: Disk>()
    ensures len { (s t : D) (file other : FileName) (r : Result ℕ Failed)
        → LenStep (D.state s) (D.state t) file r → SparesOne (D.state s) (D.state t) other }
    ensures read { (s t : D) (file other : FileName) (at : ℕ) (before after : List ℕ)
        (r : Result ℕ Failed)
        → ReadStep (D.state s) (D.state t) file at before after r
        → SparesOne (D.state s) (D.state t) other }
    ensures write { (s t : D) (file other : FileName) (at : ℕ) (bytes : List ℕ)
        (r : Result (Unit {0}) Failed)
        → other ≢ file → WriteStep (D.state s) (D.state t) file at bytes r
        → SparesOne (D.state s) (D.state t) other }
    ensures cut { (s t : D) (file other : FileName) (len : ℕ) (r : Result (Unit {0}) Failed)
        → other ≢ file → CutStep (D.state s) (D.state t) file len r
        → SparesOne (D.state s) (D.state t) other }
    ensures sync { (s t : D) (file other : FileName) (r : Result (Unit {0}) Failed)
        → SyncStep (D.state s) (D.state t) file r → SparesOne (D.state s) (D.state t) other }
    ensures looks { (s t : D) (other : FileName)
        → OnlyLooks (D.state s) (D.state t) → SparesOne (D.state s) (D.state t) other }
    ensures run { (s t : D) (file other : FileName) (test : List ℕ → List ℕ → Bool)
        → other ≢ file → TouchesPassing (D.state s) (D.state t) file test
        → SparesOne (D.state s) (D.state t) other }
{}

/// Two runs that spare a file are one.
pub fn spares_join<D: Disk>()
    ensures { (s t u : D) (file : FileName)
        → SparesOne (D.state s) (D.state t) file → SparesOne (D.state t) (D.state u) file
        → SparesOne (D.state s) (D.state u) file }
{}

/// Of a file that is spared all stays: what reads give of it, alone and with another file that is spared, what a crash
/// may leave of it, that nothing is pending in it, and that a crash leaves its first byte as it reads.
pub fn spares_keep<D: Disk>()
    ensures reads { (s t : D) (file : FileName) (test : List ℕ → Bool)
        → WhereTold (D.state s) (λ fs. IsTrue (test (file_of file fs)))
        → SparesOne (D.state s) (D.state t) file
        → WhereTold (D.state t) (λ gs. IsTrue (test (file_of file gs))) }
    ensures both { (s t : D) (one other : FileName) (test : List ℕ → List ℕ → Bool)
        → WhereTold (D.state s) (λ fs. IsTrue (test (file_of one fs) (file_of other fs)))
        → SparesOne (D.state s) (D.state t) one → SparesOne (D.state s) (D.state t) other
        → WhereTold (D.state t) (λ gs. IsTrue (test (file_of one gs) (file_of other gs))) }
    ensures leaves { (s t : D) (file : FileName) (test : List ℕ → List ℕ → Bool)
        → WhereTold (D.state s) (λ fs. (c : Files) → (D.state s).leaves c
        → IsTrue (test (file_of file fs) (file_of file c)))
        → SparesOne (D.state s) (D.state t) file
        → WhereTold (D.state t) (λ gs. (c : Files) → (D.state t).leaves c
        → IsTrue (test (file_of file gs) (file_of file c))) }
    ensures settled { (s t : D) (file : FileName) → IsSettled (D.state s) file
        → SparesOne (D.state s) (D.state t) file → IsSettled (D.state t) file }
    ensures front { (s t : D) (file : FileName) → HasFront (D.state s) file
        → SparesOne (D.state s) (D.state t) file → HasFront (D.state t) file }
{}

/// What a crash at some moment may have left of each of two disks isn't what a crash leaves of both: a byte that both
/// get, the first disk before the second, isn't left on the second alone, though each disk may have been left so.
pub fn moments_differ()
    ensures admitted { (empty : Vec ℕ Global) → empty.items ≡ []
        → IsAdmitted empty no_files one_byte }
    ensures never_left { (empty : Vec ℕ Global) → empty.items ≡ []
        → IsLeft empty no_files one_byte → ⊥ }
    ensures else_left { (empty : Vec ℕ Global) → empty.items ≡ []
        → IsLeft empty one_byte no_files }
{}
