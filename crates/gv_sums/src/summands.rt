//! Terms read as sums and differences of whole numbers.

ghost use Rattle.std.specs.Prelude.{◌<◌, length, IfOk};
ghost use Rattle.gv_terms.specs.Store.{AreIn};
ghost use Rattle.gv_sums.specs.Reading.{AreAdded, terms_in};

use crate::summand::Summand;
use gv_base::NoMemory;
use gv_known::{contains, parts_under};
use gv_terms::{Operator, Term, TermStore};

/// Adds what a term is the sum of, all of it taken away where `negative`: a listed term is what its parts are the sum of, any
/// other one is itself. It recurses as deep as the term is nested.
pub(crate) fn add_summands(
    store: &TermStore,
    sums: &[Term],
    term: Term,
    negative: bool,
    to: &mut Vec<Summand>,
) -> Result<(), NoMemory>
    requires sums { AreIn store.now sums.now }
    requires whole { term.id < length store.now }
    requires before { AreIn store.now (terms_in to.old.items) }
    ensures within { IfOk result (λ _. AreIn store.now (terms_in to.new.items)) }
    ensures added { IfOk result (λ _. AreAdded store.now sums.now term negative to.old.items to.new.items) }
{
    if !contains(store, sums, term) {
        to.push(Summand { negative, term })?;
        return Ok(());
    }
    if let Some(parts) = parts_under(store, Operator::Plus, term) {
        add_summands(store, sums, parts.first, negative, to)?;
        return add_summands(store, sums, parts.second, negative, to);
    }
    if let Some(parts) = parts_under(store, Operator::Minus, term) {
        add_summands(store, sums, parts.first, negative, to)?;
        return add_summands(store, sums, parts.second, !negative, to);
    }
    Ok(())
}
