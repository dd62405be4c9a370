//! The reports, written by hand.
use crate::builders::Does::{Aside, Claims, Holds};
use crate::builders::Found::{Cut, Depth, Fixed, Free, Refuted, Single, Spent, Stays};
use crate::builders::Warns::{Dropped, Nothing};
use crate::builders::{Bits, Case, Cells, Exception, Pair, Tells};
use net_model::Phase::{Base, Step};
use run_options::RunOptions;
use sdcv_base::Edge::{Any, Fall, Rise};
use sdcv_base::Kind::{False, Multi};

// A reset cycle, and two live ones; the data input is 1 in the second.
const TOGGLES: Bits = Bits(
    &[false, false],
    &[&[true, false], &[false, true], &[false, false]],
);

// A design without data inputs.
const ALONE: Bits = Bits(&[true], &[&[], &[]]);

const DEFAULTS: RunOptions = RunOptions {
    hazard: false,
    reset_len: 1,
    depth: 8,
    budget: 20_000,
    inv_depth: 1,
    lag: 0,
    hold: false,
    assist: None,
    free: None,
    assumed: None,
    strict: false,
};

const NO_RESET: RunOptions = RunOptions {
    reset_len: 0,
    ..DEFAULTS
};

const WHOLE: Cells = Cells(None, None, &[]);

const UNTOLD: Tells = Tells(None, &[], 0, WHOLE);

const NOTHING: Case = Case {
    options: NO_RESET,
    tells: UNTOLD,
    exceptions: &[],
    pairs: &[],
    text: "sdcv 1 mode plain reset 0 depth 8 budget 20000 inv 1
total 0 justified 0 refuted 0 undecided 0
",
    json: "{\"budget\":20000,\"commands\":[],\"depth\":8,\"inv\":1,\"mode\":\"plain\",\"pairs\":[],\"reset\":0,\
\"total\":{\"justified\":0,\"pairs\":0,\"refuted\":0,\"undecided\":0}}\n",
};

const NO_CELL: Case = Case {
    options: NO_RESET,
    tells: UNTOLD,
    exceptions: &[Exception(1, Claims(False, Any, 0), &[Nothing("zz*")])],
    pairs: &[],
    text: "sdcv 1 mode plain reset 0 depth 8 budget 20000 inv 1
command 1 line 1 false pairs 0
warning command 1 nothing zz*
total 0 justified 0 refuted 0 undecided 0
",
    json: "{\"budget\":20000,\"commands\":[{\"line\":1,\"number\":1,\"pairs\":0,\"warnings\":[\"nothing zz*\"],\
\"what\":\"false\"}],\"depth\":8,\"inv\":1,\"mode\":\"plain\",\"pairs\":[],\"reset\":0,\
\"total\":{\"justified\":0,\"pairs\":0,\"refuted\":0,\"undecided\":0}}\n",
};

// Each kind of exception, and each verdict. One name has a byte that is no character of ASCII, and a quote.
pub const EACH: Case = Case {
    options: DEFAULTS,
    tells: UNTOLD,
    exceptions: &[
        Exception(
            2,
            Claims(False, Any, 3),
            &[Nothing("zz*"), Dropped("u1/g?", 2)],
        ),
        Exception(3, Holds, &[]),
        Exception(5, Aside("-rise"), &[]),
        Exception(6, Claims(Multi(2), Any, 3), &[]),
        Exception(7, Claims(Multi(1), Any, 1), &[]),
    ],
    pairs: &[
        Pair(1, (False, Any), b"rst", b"a", Fixed),
        Pair(1, (False, Any), b"a", b"b", Depth(0)),
        Pair(1, (False, Any), b"\xffq\"", b"b", Refuted(0, TOGGLES)),
        Pair(4, (Multi(2), Any), b"a", b"b", Stays),
        Pair(4, (Multi(2), Any), b"a", b"c", Spent(Base, 0)),
        Pair(4, (Multi(2), Any), b"b", b"c", Spent(Step, 3)),
        Pair(5, (Multi(1), Any), b"a", b"b", Single),
    ],
    text: "sdcv 1 mode plain reset 1 depth 8 budget 20000 inv 1
command 1 line 2 false pairs 3
warning command 1 nothing zz*
warning command 1 dropped u1/g? 2
command 2 line 3 hold
command 3 line 5 aside -rise
command 4 line 6 multi 2 pairs 3
command 5 line 7 multi 1 pairs 1
pair 1 command 1 false rst -> a justified fixed
pair 2 command 1 false a -> b justified depth 0
pair 3 command 1 false ?q\" -> b refuted offset 0
stimulus 3 cycles 3
state 00
input 10
input 01
input 00
end
pair 4 command 4 multi 2 a -> b undecided depth 8
pair 5 command 4 multi 2 a -> c undecided budget base 0
pair 6 command 4 multi 2 b -> c undecided budget step 3
pair 7 command 5 multi 1 a -> b justified single
total 7 justified 3 refuted 1 undecided 3
",
    json: "{\"budget\":20000,\"commands\":[\
{\"line\":2,\"number\":1,\"pairs\":3,\"warnings\":[\"nothing zz*\",\"dropped u1/g? 2\"],\"what\":\"false\"},\
{\"line\":3,\"number\":2,\"pairs\":0,\"warnings\":[],\"what\":\"hold\"},\
{\"line\":5,\"number\":3,\"pairs\":0,\"warnings\":[],\"what\":\"aside -rise\"},\
{\"line\":6,\"number\":4,\"pairs\":3,\"warnings\":[],\"what\":\"multi 2\"},\
{\"line\":7,\"number\":5,\"pairs\":1,\"warnings\":[],\"what\":\"multi 1\"}],\
\"depth\":8,\"inv\":1,\"mode\":\"plain\",\"pairs\":[\
{\"command\":1,\"end\":\"a\",\"kind\":\"false\",\"number\":1,\"start\":\"rst\",\"stimulus\":null,\
\"verdict\":\"justified\",\"why\":\"fixed\"},\
{\"command\":1,\"end\":\"b\",\"kind\":\"false\",\"number\":2,\"start\":\"a\",\"stimulus\":null,\
\"verdict\":\"justified\",\"why\":\"depth 0\"},\
{\"command\":1,\"end\":\"b\",\"kind\":\"false\",\"number\":3,\"start\":\"?q\\\"\",\
\"stimulus\":{\"inputs\":[\"10\",\"01\",\"00\"],\"state\":\"00\"},\"verdict\":\"refuted\",\"why\":\"offset 0\"},\
{\"command\":4,\"end\":\"b\",\"kind\":\"multi 2\",\"number\":4,\"start\":\"a\",\"stimulus\":null,\
\"verdict\":\"undecided\",\"why\":\"depth 8\"},\
{\"command\":4,\"end\":\"c\",\"kind\":\"multi 2\",\"number\":5,\"start\":\"a\",\"stimulus\":null,\
\"verdict\":\"undecided\",\"why\":\"budget base 0\"},\
{\"command\":4,\"end\":\"c\",\"kind\":\"multi 2\",\"number\":6,\"start\":\"b\",\"stimulus\":null,\
\"verdict\":\"undecided\",\"why\":\"budget step 3\"},\
{\"command\":5,\"end\":\"b\",\"kind\":\"multi 1\",\"number\":7,\"start\":\"a\",\"stimulus\":null,\
\"verdict\":\"justified\",\"why\":\"single\"}],\
\"reset\":1,\"total\":{\"justified\":3,\"pairs\":7,\"refuted\":1,\"undecided\":3}}\n",
};

const HAZARDS: Case = Case {
    options: RunOptions {
        hazard: true,
        reset_len: 0,
        depth: 12,
        budget: 1,
        inv_depth: 0,
        ..DEFAULTS
    },
    tells: UNTOLD,
    exceptions: &[Exception(2, Claims(Multi(2), Any, 1), &[])],
    pairs: &[Pair(1, (Multi(2), Any), b"r", b"r", Refuted(0, ALONE))],
    text: "sdcv 1 mode hazard reset 0 depth 12 budget 1 inv 0
command 1 line 2 multi 2 pairs 1
pair 1 command 1 multi 2 r -> r refuted offset 0
stimulus 1 cycles 2
state 1
input -
input -
end
total 1 justified 0 refuted 1 undecided 0
",
    json: "{\"budget\":1,\"commands\":[{\"line\":2,\"number\":1,\"pairs\":1,\"warnings\":[],\"what\":\"multi 2\"}],\
\"depth\":12,\"inv\":0,\"mode\":\"hazard\",\"pairs\":[\
{\"command\":1,\"end\":\"r\",\"kind\":\"multi 2\",\"number\":1,\"start\":\"r\",\
\"stimulus\":{\"inputs\":[\"-\",\"-\"],\"state\":\"1\"},\"verdict\":\"refuted\",\"why\":\"offset 0\"}],\
\"reset\":0,\"total\":{\"justified\":0,\"pairs\":1,\"refuted\":1,\"undecided\":0}}\n",
};

// Three cycles and one more, at which a false path is judged too.
const LATE: Bits = Bits(
    &[false, false],
    &[
        &[true, false],
        &[false, true],
        &[false, true],
        &[false, false],
    ],
);

const EDGES: Case = Case {
    options: RunOptions { lag: 1, ..DEFAULTS },
    tells: UNTOLD,
    exceptions: &[
        Exception(2, Claims(False, Rise, 1), &[Dropped("ck", 1)]),
        Exception(3, Claims(Multi(3), Fall, 1), &[]),
        Exception(4, Claims(False, Any, 1), &[]),
    ],
    pairs: &[
        Pair(1, (False, Rise), b"a", b"b", Refuted(0, LATE)),
        Pair(2, (Multi(3), Fall), b"a", b"b", Depth(0)),
        Pair(3, (False, Any), b"b", b"a", Fixed),
    ],
    text: "sdcv 1 mode plain reset 1 depth 8 budget 20000 inv 1 lag 1
command 1 line 2 false rise pairs 1
warning command 1 dropped ck 1
command 2 line 3 multi 3 fall pairs 1
command 3 line 4 false pairs 1
pair 1 command 1 false rise a -> b refuted offset 0
stimulus 1 cycles 4
state 00
input 10
input 01
input 01
input 00
end
pair 2 command 2 multi 3 fall a -> b justified depth 0
pair 3 command 3 false b -> a justified fixed
total 3 justified 2 refuted 1 undecided 0
",
    json: "{\"budget\":20000,\"commands\":[\
{\"line\":2,\"number\":1,\"pairs\":1,\"warnings\":[\"dropped ck 1\"],\"what\":\"false rise\"},\
{\"line\":3,\"number\":2,\"pairs\":1,\"warnings\":[],\"what\":\"multi 3 fall\"},\
{\"line\":4,\"number\":3,\"pairs\":1,\"warnings\":[],\"what\":\"false\"}],\
\"depth\":8,\"inv\":1,\"lag\":1,\"mode\":\"plain\",\"pairs\":[\
{\"command\":1,\"end\":\"b\",\"kind\":\"false rise\",\"number\":1,\"start\":\"a\",\
\"stimulus\":{\"inputs\":[\"10\",\"01\",\"01\",\"00\"],\"state\":\"00\"},\"verdict\":\"refuted\",\"why\":\"offset 0\"},\
{\"command\":2,\"end\":\"b\",\"kind\":\"multi 3 fall\",\"number\":2,\"start\":\"a\",\"stimulus\":null,\
\"verdict\":\"justified\",\"why\":\"depth 0\"},\
{\"command\":3,\"end\":\"a\",\"kind\":\"false\",\"number\":3,\"start\":\"b\",\"stimulus\":null,\
\"verdict\":\"justified\",\"why\":\"fixed\"}],\
\"reset\":1,\"total\":{\"justified\":2,\"pairs\":3,\"refuted\":1,\"undecided\":0}}\n",
};

// Nothing is selected, and all that can be asked for is.
const ASKED: Case = Case {
    options: RunOptions {
        lag: 2,
        hold: true,
        assist: Some(14),
        free: Some(0),
        assumed: Some(3),
        strict: true,
        ..DEFAULTS
    },
    tells: UNTOLD,
    exceptions: &[],
    pairs: &[],
    text: "sdcv 1 mode plain reset 1 depth 8 budget 20000 inv 1 lag 2 hold assist 14 free 0 assumed 3 strict
total 0 justified 0 refuted 0 undecided 0
",
    json: "{\"assist\":14,\"assumed\":3,\"budget\":20000,\"commands\":[],\"cuts\":[],\"depth\":8,\"free\":0,\"hold\":true,\
\"inv\":1,\"lag\":2,\"mode\":\"plain\",\"pairs\":[],\"reset\":1,\"strict\":true,\
\"total\":{\"justified\":0,\"pairs\":0,\"refuted\":0,\"undecided\":0},\"unjudged\":[]}\n",
};

// A sign-off: commands are passed over, others are not judged, and the hold side of two false paths is not.
const SIGNOFF: Case = Case {
    options: RunOptions {
        strict: true,
        ..DEFAULTS
    },
    tells: Tells(
        Some(&[("set_sense", 2), ("set_dont_use", 1)]),
        &[(3, "set_clock_groups"), (4, "set_sense")],
        2,
        WHOLE,
    ),
    exceptions: &[
        Exception(2, Claims(False, Any, 1), &[]),
        Exception(7, Claims(False, Any, 0), &[Nothing("zz")]),
    ],
    pairs: &[Pair(1, (False, Any), b"a", b"b", Depth(0))],
    text: "sdcv 1 mode plain reset 1 depth 8 budget 20000 inv 1 strict
skipped set_sense 2
skipped set_dont_use 1
warning line 3 unjudged set_clock_groups
warning line 4 unjudged set_sense
note hold side not judged commands 2
command 1 line 2 false pairs 1
command 2 line 7 false pairs 0
warning command 2 nothing zz
pair 1 command 1 false a -> b justified depth 0
total 1 justified 1 refuted 0 undecided 0
",
    json: "{\"budget\":20000,\"commands\":[{\"line\":2,\"number\":1,\"pairs\":1,\"warnings\":[],\"what\":\"false\"},\
{\"line\":7,\"number\":2,\"pairs\":0,\"warnings\":[\"nothing zz\"],\"what\":\"false\"}],\
\"depth\":8,\"hold_commands\":2,\"inv\":1,\"mode\":\"plain\",\"pairs\":[\
{\"command\":1,\"end\":\"b\",\"kind\":\"false\",\"number\":1,\"start\":\"a\",\"stimulus\":null,\
\"verdict\":\"justified\",\"why\":\"depth 0\"}],\
\"reset\":1,\"skipped\":[{\"count\":2,\"name\":\"set_sense\"},{\"count\":1,\"name\":\"set_dont_use\"}],\"strict\":true,\
\"total\":{\"justified\":1,\"pairs\":1,\"refuted\":0,\"undecided\":0},\
\"unjudged\":[{\"line\":3,\"name\":\"set_clock_groups\"},{\"line\":4,\"name\":\"set_sense\"}]}\n",
};

// Nothing is passed over, though it may be.
const NONE_SKIPPED: Case = Case {
    options: NO_RESET,
    tells: Tells(Some(&[]), &[], 0, WHOLE),
    exceptions: &[],
    pairs: &[],
    text: "sdcv 1 mode plain reset 0 depth 8 budget 20000 inv 1
total 0 justified 0 refuted 0 undecided 0
",
    json: "{\"budget\":20000,\"commands\":[],\"depth\":8,\"inv\":1,\"mode\":\"plain\",\"pairs\":[],\"reset\":0,\"skipped\":[],\
\"total\":{\"justified\":0,\"pairs\":0,\"refuted\":0,\"undecided\":0}}\n",
};

// Cells are cut out of a top module that is asked for by its name, as its clock is. What is free, and what is cut, leaves pairs undecided.
pub const CUTS: Case = Case {
    options: RunOptions {
        free: Some(1),
        ..DEFAULTS
    },
    tells: Tells(
        Some(&[("set_sense", 2)]),
        &[],
        0,
        Cells(
            Some("chip"),
            Some("clk \u{7f}a"),
            &[("RAM", 1, false), ("T\u{7f}BUF", 2, true)],
        ),
    ),
    exceptions: &[Exception(2, Claims(False, Any, 4), &[Dropped("m/A", 1)])],
    pairs: &[
        Pair(1, (False, Any), b"a", b"b", Free(0, TOGGLES)),
        Pair(1, (False, Any), b"a", b"m/A[1]", Free(1, LATE)),
        Pair(1, (False, Any), b"m/Q", b"b", Cut),
        Pair(1, (False, Any), b"c", b"b", Refuted(0, TOGGLES)),
    ],
    text: "sdcv 1 mode plain reset 1 depth 8 budget 20000 inv 1 free 1
top chip
clock clk ?a
cut RAM 1
cut T?BUF 2 open
skipped set_sense 2
command 1 line 2 false pairs 4
warning command 1 dropped m/A 1
pair 1 command 1 false a -> b undecided free 0
stimulus 1 cycles 3
state 00
input 10
input 01
input 00
end
pair 2 command 1 false a -> m/A[1] undecided free 1
stimulus 2 cycles 4
state 00
input 10
input 01
input 01
input 00
end
pair 3 command 1 false m/Q -> b undecided cut
pair 4 command 1 false c -> b refuted offset 0
stimulus 4 cycles 3
state 00
input 10
input 01
input 00
end
total 4 justified 0 refuted 1 undecided 3
",
    json: "{\"budget\":20000,\"clock\":\"clk ?a\",\"commands\":[{\"line\":2,\"number\":1,\"pairs\":4,\"warnings\":[\"dropped m/A 1\"],\"what\":\"false\"}],\
\"cuts\":[{\"cells\":1,\"name\":\"RAM\",\"open\":false},{\"cells\":2,\"name\":\"T?BUF\",\"open\":true}],\
\"depth\":8,\"free\":1,\"inv\":1,\"mode\":\"plain\",\"pairs\":[\
{\"command\":1,\"end\":\"b\",\"kind\":\"false\",\"number\":1,\"start\":\"a\",\
\"stimulus\":{\"inputs\":[\"10\",\"01\",\"00\"],\"state\":\"00\"},\"verdict\":\"undecided\",\"why\":\"free 0\"},\
{\"command\":1,\"end\":\"m/A[1]\",\"kind\":\"false\",\"number\":2,\"start\":\"a\",\
\"stimulus\":{\"inputs\":[\"10\",\"01\",\"01\",\"00\"],\"state\":\"00\"},\"verdict\":\"undecided\",\"why\":\"free 1\"},\
{\"command\":1,\"end\":\"b\",\"kind\":\"false\",\"number\":3,\"start\":\"m/Q\",\"stimulus\":null,\
\"verdict\":\"undecided\",\"why\":\"cut\"},\
{\"command\":1,\"end\":\"b\",\"kind\":\"false\",\"number\":4,\"start\":\"c\",\
\"stimulus\":{\"inputs\":[\"10\",\"01\",\"00\"],\"state\":\"00\"},\"verdict\":\"refuted\",\"why\":\"offset 0\"}],\
\"reset\":1,\"skipped\":[{\"count\":2,\"name\":\"set_sense\"}],\"top\":\"chip\",\
\"total\":{\"justified\":0,\"pairs\":4,\"refuted\":1,\"undecided\":3}}\n",
};

pub const CASES: &[Case] = &[
    NOTHING,
    NO_CELL,
    EACH,
    HAZARDS,
    EDGES,
    ASKED,
    SIGNOFF,
    NONE_SKIPPED,
    CUTS,
];
