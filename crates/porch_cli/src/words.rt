//! The run that words order.

ghost use Rattle.std.specs.Prelude.{◌≡◌, IfSome};
ghost use Rattle.porch_session.specs.Limits.{AreLimits};
ghost use Rattle.porch_words.specs.Words.{texts};
ghost use Rattle.porch_cli.specs.Words.{RunOrder, IsExec};
ghost use Rattle.porch_words.specs.Orders.{order_seen};
ghost use Rattle.porch_cli.specs.inside.Ordered.{IsOrderedBy, run_of, run_seen};

use porch_session::Limits;
use porch_words::{Order, Usage, read_words};

/// A run that is ordered.
#[derive(Clone, Copy)]
pub struct RunOrdered<'w> {
    /// The name of its layout.
    pub layout: &'w str,
    /// What it is limited to.
    pub limits: Limits,
}

/// The run that words order, where they are `exec` with its options. The other commands aren't built yet.
pub fn ordered_run(words: &[String]) -> Option<RunOrdered<'_>>
    ensures ordered { IsOrderedBy (texts words.now) result }
    ensures limited { IfSome result (λ run. AreLimits run.limits) }
    ensures once { (o p : RunOrder) → IsExec (texts words.now) o → IsExec (texts words.now) p
        → o ≡ p }
{
    match read_words(words) {
        Ok(order) => run_in(order),
        Err(Usage) => None,
    }
}

/// The run in an order.
fn run_in(order: Order<'_>) -> Option<RunOrdered<'_>>
    ensures { run_seen result ≡ run_of (order_seen order.entry) }
{
    match order {
        Order::Exec { layout, limits } => Some(RunOrdered { layout, limits }),
        Order::Compile
        | Order::Start { .. }
        | Order::Resume { .. }
        | Order::Clear
        | Order::Vet { .. }
        | Order::Show
        | Order::Drill { .. } => None,
    }
}
