use crate::answers::solved;
use dimacs_text::read_dimacs;
use std::alloc::Global;
use std::test::Fail;

// What is printed, and the status.
#[derive(Drop)]
struct Printed {
    text: String,
    status: u8,
}

// The text told of a text, or why it is none.
fn told(alloc: Global, text: &str, budget: u64) -> Result<Printed, Fail> {
    match read_dimacs(alloc, text.as_bytes()) {
        Ok(read) => {
            let mut out = Vec::new(alloc);
            let status = solved(alloc, &read, budget, &mut out)?;
            let text = String::from_utf8(out)?;
            Ok(Printed { text, status })
        }
        Err(fault) => Ok(Printed {
            text: format!(in alloc; "{fault}")?,
            status: 1,
        }),
    }
}

const THREE_PIGEONS: &str = "c 3 into 2\np cnf 6 9\n1 2 0 3 4 0 5 6 0\n\
    -1 -3 0 -1 -5 0\n-3 -5 0\n-2 -4 0 -2 -6 0 -4 -6 0\n";

const FOUR_PIGEONS: &str = "p cnf 12 22\n1 2 3 0 4 5 6 0 7 8 9 0 10 11 12 0\n\
    -1 -4 0 -1 -7 0 -1 -10 0 -4 -7 0 -4 -10 0 -7 -10 0\n\
    -2 -5 0 -2 -8 0 -2 -11 0 -5 -8 0 -5 -11 0 -8 -11 0\n\
    -3 -6 0 -3 -9 0 -3 -12 0 -6 -9 0 -6 -12 0 -9 -12 0\n";

// The form of the competitions, judged by hand: a text, a budget, the status and what is told.
// A propagation is a literal that a unit clause sets. Whatever variable of the pigeons is decided
// first, five literals are set before two pigeons are in one hole.
const ANSWERED: &[(&str, u64, u8, &str)] = &[
    (
        "p cnf 0 0\n",
        0,
        10,
        "c conflicts 0\nc propagations 0\ns SATISFIABLE\nv 0\n",
    ),
    (
        "p cnf 2 2\n1 0\n-1 -2 0\n",
        0,
        10,
        "c conflicts 0\nc propagations 2\ns SATISFIABLE\nv 1 -2 0\n",
    ),
    (
        "c a\np\tcnf  2 2\r\n 1 \n\n0 -1\t-2 0",
        0,
        10,
        "c conflicts 0\nc propagations 2\ns SATISFIABLE\nv 1 -2 0\n",
    ),
    (
        "p cnf 1 2\n1 -1 1 0\n1 1 0\n",
        0,
        10,
        "c conflicts 0\nc propagations 1\ns SATISFIABLE\nv 1 0\n",
    ),
    (
        "p cnf 1 2\n1 0\n-1 0\n",
        0,
        20,
        "c conflicts 1\nc propagations 1\nc clauses learnt 0\nc steps 1\ns UNSATISFIABLE\n",
    ),
    (
        "p cnf 3 1\n0\n",
        9,
        20,
        "c conflicts 1\nc propagations 0\nc clauses learnt 0\nc steps 1\ns UNSATISFIABLE\n",
    ),
    (
        "p cnf 5 1\n3 0\n",
        0,
        10,
        "c conflicts 0\nc propagations 1\ns SATISFIABLE\nv -1 -2 3 -4 -5 0\n",
    ),
    (
        "p cnf 2147483647 2\n1 0\n-1 0\n",
        0,
        20,
        "c conflicts 1\nc propagations 1\nc clauses learnt 0\nc steps 1\ns UNSATISFIABLE\n",
    ),
    (
        THREE_PIGEONS,
        0,
        0,
        "c conflicts 1\nc propagations 5\nc clauses learnt 0\nc steps 0\ns UNKNOWN\n",
    ),
];

#[test]
fn texts_are_answered(rt: HostRuntime) -> Result<(), Fail> {
    for (text, budget, status, want) in ANSWERED {
        let told = told(rt.alloc(), text, *budget)?;
        assert_eq!(rt; told.status, *status, "{text}");
        assert_eq!(rt; told.text.as_str(), *want);
    }
    Ok(())
}

// The conflict after the last clause that the budget allows is counted too.
#[test]
fn a_spent_budget_is_told(rt: HostRuntime) -> Result<(), Fail> {
    let told = told(rt.alloc(), FOUR_PIGEONS, 1)?;
    assert_eq!(rt; told.status, 0);
    assert!(rt; told.text.as_str().starts_with("c conflicts 2\n"));
    assert!(rt;
        told.text
            .as_str()
            .ends_with("c clauses learnt 1\nc steps 1\ns UNKNOWN\n")
    );
    Ok(())
}

const REFUSED: &[(&str, &str)] = &[
    ("", "no line `p cnf VARS CLAUSES`"),
    ("c 1 0\n", "no line `p cnf VARS CLAUSES`"),
    (
        "c a\n1 0\np cnf 1 1\n",
        "line 2: no line `p cnf VARS CLAUSES` before the clauses",
    ),
    (
        "p cnf 1\n1 0\n",
        "line 1: no line `p cnf VARS CLAUSES`, or a second one",
    ),
    (
        "p cnf 2147483648 0\n",
        "line 1: no line `p cnf VARS CLAUSES`, or a second one",
    ),
    (
        "p cnf 1 1\np cnf 1 1\n1 0\n",
        "line 2: no line `p cnf VARS CLAUSES`, or a second one",
    ),
    ("p cnf 1 1\n1 +2 0\n", "line 2: a word that is no number"),
    (
        "p cnf 1 1\n1\n2 0\n",
        "line 3: a variable above the number of variables",
    ),
    ("p cnf 2 1\n1 2\n", "the last clause has no 0"),
    ("p cnf 2 1\n1 0\n2 0\n", "2 clauses, where 1 are told"),
    ("p cnf 2 3\n1 0\n2 -2 0\n", "2 clauses, where 3 are told"),
];

#[test]
fn texts_that_are_no_formula_are_refused(rt: HostRuntime) -> Result<(), Fail> {
    for (text, want) in REFUSED {
        let told = told(rt.alloc(), text, 9)?;
        assert_eq!(rt; told.status, 1, "{text}");
        assert_eq!(rt; told.text.as_str(), *want);
    }
    Ok(())
}

// Pigeons never fit into fewer holes.
#[test]
fn pigeons_are_refuted(rt: HostRuntime) -> Result<(), Fail> {
    for text in [THREE_PIGEONS, FOUR_PIGEONS] {
        let told = told(rt.alloc(), text, 1000)?;
        assert_eq!(rt; told.status, 20);
        assert!(rt; told.text.as_str().ends_with("s UNSATISFIABLE\n"));
    }
    Ok(())
}
