//! `int b[3]` at address 16 under le32, and first in the data: words of addresses, and addresses of words.

ghost use Rattle.std.specs.Prelude.{◌≡◌, [], ◌∷◌, IfOk, IfSome};
ghost use Rattle.porch_layout.specs.Layouts.{le32};
ghost use Rattle.porch_find.specs.Worked.{worked_types};
ghost use Rattle.porch_points.specs.Worked.{worked_addresses, worked_places};

use porch_find::{Root, Roots};
use porch_layout::{Layout, built_in};
use porch_metrics::Metrics;
use porch_points::{BadWord, DEAD, Plan, pointers_into_an_array, to_address, to_word};
use porch_types::{INT, Members, Ty, TypeFault, Types};
use std::alloc::{AllocError, Global};
use std::process::Abort;
use std::test::Fail;

const LONG: u32 = 6;

/// The number of the type of `b`, and of a struct that has such an array.
const THREE_INTS: u32 = 8;

const STRUCT: u32 = 9;

/// Where `b` stands in memory.
const ADDRESS: u64 = 16;

/// An address, and the word that it has.
struct Pair {
    address: u64,
    word: u64,
}

/// Null, the elements, the end of the last one.
static PAIRS: [Pair; 5] = [
    Pair {
        address: 0,
        word: 0,
    },
    Pair {
        address: 16,
        word: 2,
    },
    Pair {
        address: 20,
        word: 10,
    },
    Pair {
        address: 24,
        word: 18,
    },
    Pair {
        address: 28,
        word: 19,
    },
];

/// Before the array, between elements, behind its end, and all bits set.
static DEAD_ADDRESSES: [u64; 6] = [1, 15, 18, 27, 29, u64::MAX];

/// The ends of elements where others begin, and of a place where none begins; a place between elements; one
/// behind the data; and the number that no word is.
static BAD_WORDS: [u64; 6] = [3, 11, 15, 12, 26, 1];

#[test]
fn words_and_addresses_name_the_same(rt: HostRuntime) -> Result<(), Fail> {
    let alloc = rt.alloc();
    let types = sample_types(alloc)?;
    let layout = sample_layout().ok_or("le32")?;
    let metrics = Metrics::new(alloc, &types, &layout)?;
    let plan = sample_plan(alloc)?;
    expect_pairs(&rt, &plan, &metrics);
    expect_dead(&rt, &plan, &metrics);
    expect_bad(&rt, &plan, &metrics);
    Ok(())
}

/// `int[3]`, `struct s {int x; long y; int a[3];}` and `struct s[2]` behind the kinds.
fn sample_types(alloc: Global) -> Result<Types, TypeFault>
    ensures { IfOk result (λ types. types ≡ worked_types) }
{
    let mut types = Types::new(alloc)?;
    types.add(Ty::Array { of: INT, count: 3 })?;
    let members = Members::from_vec([INT, LONG, THREE_INTS].to_vec(alloc)?);
    types.add(Ty::Struct { members })?;
    types.add(Ty::Array {
        of: STRUCT,
        count: 2,
    })?;
    Ok(types)
}

fn sample_layout() -> Option<Layout>
    ensures { IfSome result (λ layout. layout ≡ le32) }
{
    built_in("le32")
}

fn sample_plan(alloc: Global) -> Result<Plan, AllocError>
    ensures addresses { IfOk result (λ plan. plan.addresses.items ≡ worked_addresses) }
    ensures places { IfOk result (λ plan. plan.places.items ≡ worked_places) }
{
    let addresses = array_at(alloc, ADDRESS)?;
    let places = array_at(alloc, 0)?;
    Ok(Plan { addresses, places })
}

/// The array alone, at a place.
fn array_at(alloc: Global, at: u64) -> Result<Roots, AllocError>
    ensures { IfOk result (λ roots.
        roots.items ≡ record { at = at; ty = THREE_INTS; count = 1 } ∷ []) }
{
    let mut roots = Roots::with_room(alloc, 1)?;
    roots.put(Root {
        at,
        ty: THREE_INTS,
        count: 1,
    });
    Ok(roots)
}

fn expect_pairs(rt: &impl Abort, plan: &Plan, metrics: &Metrics)
    requires metrics { metrics.now ≡ record { types = worked_types; layout = le32 } }
    requires addresses { plan.now.addresses.items ≡ worked_addresses }
    requires places { plan.now.places.items ≡ worked_places }
{
    pointers_into_an_array();
    for pair in &PAIRS {
        assert_eq!(rt; to_word(plan, metrics, pair.address, INT), pair.word);
        assert_eq!(rt; to_address(plan, metrics, pair.word, INT), Ok(pair.address));
    }
    assert_eq!(rt; to_address(plan, metrics, DEAD, INT), Ok(u64::MAX));
}

fn expect_dead(rt: &impl Abort, plan: &Plan, metrics: &Metrics)
    requires metrics { metrics.now ≡ record { types = worked_types; layout = le32 } }
    requires addresses { plan.now.addresses.items ≡ worked_addresses }
    requires places { plan.now.places.items ≡ worked_places }
{
    pointers_into_an_array();
    for address in &DEAD_ADDRESSES {
        assert_eq!(rt; to_word(plan, metrics, *address, INT), DEAD);
    }
}

fn expect_bad(rt: &impl Abort, plan: &Plan, metrics: &Metrics)
    requires metrics { metrics.now ≡ record { types = worked_types; layout = le32 } }
    requires addresses { plan.now.addresses.items ≡ worked_addresses }
    requires places { plan.now.places.items ≡ worked_places }
{
    pointers_into_an_array();
    for word in &BAD_WORDS {
        assert_eq!(rt; to_address(plan, metrics, *word, INT), Err(BadWord));
    }
}
