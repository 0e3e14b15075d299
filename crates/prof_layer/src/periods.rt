//! Intervals of time in an order in which a moment is looked up by halving.
ghost use Rattle.std.specs.Prelude.{◌≡◌, IfOk};
ghost use Rattle.std.specs.List.{list_any};
ghost use Rattle.prof_path.specs.Rewriting.{is_during};
ghost use Rattle.prof_layer.specs.Periods.{AreByStart, AreAscending, HaveSameMoments};

use prof_path::Span;
use std::alloc::{AllocError, Global};
use std::marker::Model;

/// Lets each interval last as long as any before it. Those start no later, so all of them together hold the same moments.
fn raise_ends(spans: &mut [Span])
    requires { AreByStart spans.old }
    ensures ascending { AreAscending spans.new }
    ensures same { HaveSameMoments spans.new spans.old }
{
    for i in 1..spans.len() {
        spans[i].end = spans[i].end.max(spans[i - 1].end);
    }
}

/// Intervals of which none starts or ends before an earlier one.
#[derive(Drop)]
pub(crate) struct Periods {
    spans: Vec<Span>,
}

impl Model for Periods {
    ghost use Rattle.std.specs.Prelude.{List};
    ghost use Rattle.prof_path.specs.declared.lists.Span.{Span};
    ghost use Rattle.prof_layer.specs.Periods.{AreAscending};

    ghost Value = { List Span };

    ghost view = { λ periods. periods.spans.items };

    ghost invariant = { λ periods. AreAscending periods.spans.items };
}

impl Periods {
    /// Intervals that hold the same moments as the given ones, which may come in any order.
    pub(crate) fn of(alloc: Global, spans: &[Span]) -> Result<Periods, AllocError>
        ensures { IfOk result (λ periods. HaveSameMoments periods spans.now) }
    {
        let mut spans = Vec::from_slice(alloc, spans)?;
        spans.sort_unstable_by_key(|span| span.start);
        raise_ends(&mut spans);
        Ok(Periods { spans })
    }

    /// Whether a moment lies in one of the intervals. Of those that start by then the last one ends last.
    pub(crate) fn has(&self, moment: i64) -> bool
        ensures { result ≡ list_any (is_during moment) self.now }
    {
        let begun = self.spans.partition_point(|span| span.start <= moment);
        begun > 0 && moment <= self.spans[begun - 1].end
    }
}
