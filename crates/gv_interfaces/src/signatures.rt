//! Whether two operations take and reply the same.

ghost use Rattle.std.specs.Prelude.{◌≡◌, ◌<◌, length, IfSome};
ghost use Rattle.gv_spec.specs.Atomic.{term_sort};
ghost use Rattle.gv_interfaces.specs.Deciding as deciding;

use gv_atomic::Op;
use gv_base::SmallOp;
use gv_terms::{Sort, Term, TermStore, Var};

fn are_words(params: &[Var]) -> bool
    ensures { result ≡ deciding.are_words params.now }
{
    let mut left = params;
    while let [param, rest @ ..] = left {
        if param.sort != Sort::Word {
            return false;
        }
        left = rest;
    }
    true
}

fn replies_word(store: &TermStore, reply: Option<Term>) -> bool
    requires { IfSome reply (λ t. t.id < length store.now) }
    ensures { result ≡ deciding.is_word (term_sort store.now reply) }
{
    match reply {
        Some(term) => store.sort_of(term) == Sort::Word,
        None => false,
    }
}

/// Whether an operation of a specification takes and replies what one of a package of the small form does.
pub fn takes_words(op: &SmallOp, store: &TermStore, other: &Op) -> bool
    requires { IfSome other.now.reply (λ t. t.id < length store.now) }
    ensures { result ≡ deciding.takes_words (length op.now.params) store.now other.now }
{
    other.params.len() == op.params.len()
        && are_words(other.params.as_slice())
        && replies_word(store, other.reply)
}
