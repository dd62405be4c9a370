//! Clauses, beside those worked out by hand.
use net_model::InvClause;
use net_samples::Lits;
use sdcv_base::Seq;
use verdicts::InvSet;

fn is_clause(clause: &InvClause, want: Lits) -> bool {
    if clause.lits.len() != want.len() {
        return false;
    }
    for k in 0..want.len() {
        let (reg, value) = want[k];
        let lit = clause.lits.at(k);
        if lit.reg != reg || lit.value != value {
            return false;
        }
    }
    true
}

/// The clauses are these, in this order.
pub fn are_clauses(clauses: &Seq<InvClause>, wants: &[Lits]) -> bool {
    if clauses.len() != wants.len() {
        return false;
    }
    for k in 0..wants.len() {
        if !is_clause(clauses.item(k), wants[k]) {
            return false;
        }
    }
    true
}

fn has_kept(set: &InvSet, want: Lits) -> bool {
    for k in 0..set.kept.len() {
        if is_clause(set.kept.item(k), want) {
            return true;
        }
    }
    false
}

fn has_spent(set: &InvSet, want: Lits) -> bool {
    for k in 0..set.spent.len() {
        if is_clause(&set.spent.item(k).clause, want) {
            return true;
        }
    }
    false
}

/// These are kept, in whatever order, each once.
pub fn are_kept(set: &InvSet, wants: &[Lits]) -> bool {
    for want in wants {
        if !has_kept(set, *want) {
            return false;
        }
    }
    set.kept.len() == wants.len()
}

/// These spend the budget, in whatever order, each once.
pub fn are_spent(set: &InvSet, wants: &[Lits]) -> bool {
    for want in wants {
        if !has_spent(set, *want) {
            return false;
        }
    }
    set.spent.len() == wants.len()
}
