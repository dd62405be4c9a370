//! Reports, written by hand.

/// The report of two exceptions over a bus, of one that is for hold checks, and of a false path, with its stimuli.
pub const SAMPLER: &str = "sdcv 1 mode plain reset 1 depth 8 budget 20000 inv 1
command 1 line 7 multi 2 pairs 4
command 2 line 9 hold
command 3 line 12 multi 2 pairs 2
command 4 line 15 false pairs 3
pair 1 command 1 multi 2 u_path/a_reg[0] -> u_path/b_reg[0] justified depth 0
pair 2 command 1 multi 2 u_path/a_reg[0] -> u_path/b_reg[1] justified depth 0
pair 3 command 1 multi 2 u_path/a_reg[1] -> u_path/b_reg[0] justified depth 0
pair 4 command 1 multi 2 u_path/a_reg[1] -> u_path/b_reg[1] justified depth 0
pair 5 command 3 multi 2 u_path/a_reg[0] -> u_watch/odd_reg refuted offset 0
stimulus 5 cycles 3
state 000000000000
input 0000000
input 1000001
input 1000000
end
pair 6 command 3 multi 2 u_path/a_reg[1] -> u_watch/odd_reg refuted offset 0
stimulus 6 cycles 3
state 000000000000
input 0000000
input 1000010
input 1000000
end
pair 7 command 4 false u_settings/mode_reg -> u_path/b_reg[0] justified depth 0
pair 8 command 4 false u_settings/mode_reg -> u_path/b_reg[1] justified depth 0
pair 9 command 4 false u_settings/mode_reg -> u_watch/snap_reg undecided depth 8
total 9 justified 6 refuted 2 undecided 1
";

/// Exceptions that select nothing, have a warning, or are set aside; a rising start, a lag, and names with several indices.
pub const NOTES: &str = "sdcv 1 mode hazard reset 0 depth 8 budget 20000 inv 1 lag 2
command 1 line 2 false pairs 0
warning command 1 nothing nosuch* b
command 2 line 3 aside -rise
command 3 line 4 hold
command 4 line 5 multi 2 rise pairs 3
warning command 4 dropped x[*] 2
pair 1 command 4 multi 2 rise m[3]/a[0] -> q[12]_reg justified single
pair 2 command 4 multi 2 rise m[4]/a[10] -> q[0]_reg justified single
pair 3 command 4 multi 2 rise m[4]/a[x] -> q[]_reg undecided budget base 3
total 3 justified 2 refuted 0 undecided 1
";

/// The same as JSON, with keys that are not known, and without spaces.
pub const NOTES_JSON: &str =
    r#"{"budget":20000,"commands":[{"line":2,"number":1,"pairs":0,"warnings":["nothing nosuch* b"],"what":"false"},{"line":3,"number":2,"pairs":0,"warnings":[],"what":"aside -rise"},{"line":4,"number":3,"pairs":0,"warnings":[],"what":"hold"},{"line":5,"number":4,"pairs":3,"warnings":["dropped x[*] 2"],"what":"multi 2 rise"}],"depth":8,"inv":1,"lag":2,"mode":"hazard","new":{"x":[1,null]},"pairs":[{"command":4,"end":"q[12]_reg","kind":"multi 2 rise","number":1,"start":"m[3]/a[0]","stimulus":null,"verdict":"justified","why":"single"},{"command":4,"end":"q[0]_reg","kind":"multi 2 rise","number":2,"start":"m[4]/a[10]","stimulus":null,"verdict":"justified","why":"single"},{"command":4,"end":"q[]_reg","kind":"multi 2 rise","number":3,"start":"m[4]/a[x]","stimulus":null,"verdict":"undecided","why":"budget base 3"}],"reset":0,"total":{"justified":2,"pairs":3,"refuted":0,"undecided":1}}
"#;

/// A script without an exception.
pub const EMPTY: &str = "sdcv 1 mode plain reset 0 depth 8 budget 20000 inv 1
total 0 justified 0 refuted 0 undecided 0
";

/// One justified pair.
pub const CLEAN: &str = "sdcv 1 mode plain reset 0 depth 8 budget 20000 inv 1
command 1 line 1 false pairs 1
pair 1 command 1 false a -> b justified fixed
total 1 justified 1 refuted 0 undecided 0
";

/// A refuted pair as JSON, with its stimulus.
pub const REFUTED_JSON: &str =
    r#"{"budget":1,"commands":[{"line":1,"number":1,"pairs":1,"warnings":[],"what":"false"}],"depth":8,"inv":1,"mode":"plain","pairs":[{"command":1,"end":"b","kind":"false","number":1,"start":"a","stimulus":{"inputs":["10","01"],"state":"-"},"verdict":"refuted","why":"offset 0"}],"reset":0,"total":{"justified":0,"pairs":1,"refuted":1,"undecided":0}}
"#;

/// A report for a sign-off, which tells of commands that are passed over and of others that are not judged.
pub const SIGNOFF: &str = "sdcv 1 mode plain reset 0 depth 8 budget 20000 inv 1 strict
skipped set_sense 2
skipped set dont use 1
warning line 3 unjudged set_clock_groups
warning line 4 unjudged set_sense
note hold side not judged commands 2
command 1 line 1 false pairs 1
command 2 line 7 false pairs 0
pair 1 command 1 false a -> b justified fixed
total 1 justified 1 refuted 0 undecided 0
";

/// The same as JSON.
pub const SIGNOFF_JSON: &str =
    r#"{"budget":20000,"commands":[{"line":1,"number":1,"pairs":1,"warnings":[],"what":"false"},{"line":7,"number":2,"pairs":0,"warnings":[],"what":"false"}],"depth":8,"hold_commands":2,"inv":1,"mode":"plain","pairs":[{"command":1,"end":"b","kind":"false","number":1,"start":"a","stimulus":null,"verdict":"justified","why":"fixed"}],"reset":0,"skipped":[{"count":2,"name":"set_sense"},{"count":1,"name":"set dont use"}],"strict":true,"total":{"justified":1,"pairs":1,"refuted":0,"undecided":0},"unjudged":[{"line":3,"name":"set_clock_groups"},{"line":4,"name":"set_sense"}]}
"#;

/// Nothing is told beside one justified pair but that hold sides are not judged.
pub const NOTED: &str = "sdcv 1 mode plain reset 0 depth 8 budget 20000 inv 1 strict
note hold side not judged commands 1
command 1 line 1 false pairs 1
pair 1 command 1 false a -> b justified fixed
total 1 justified 1 refuted 0 undecided 0
";

/// A report of a netlist of which cells are cut out, with pairs that are left undecided by what is free and by what is cut.
pub const CUTS: &str = "sdcv 1 mode plain reset 0 depth 8 budget 20000 inv 1 free 2
top chip
clock clk a
cut RAM 1
cut pad cell 2 open
skipped set_sense 2
command 1 line 1 false pairs 3
pair 1 command 1 false a[0] -> m/A[1] undecided free 0
stimulus 1 cycles 2
state -
input 10
input 01
end
pair 2 command 1 false a[1] -> m/A[0] undecided free 0
stimulus 2 cycles 2
state -
input 10
input 01
end
pair 3 command 1 false a[0] -> b undecided cut
total 3 justified 0 refuted 0 undecided 3
";

/// The same as JSON.
pub const CUTS_JSON: &str =
    r#"{"budget":20000,"clock":"clk a","commands":[{"line":1,"number":1,"pairs":3,"warnings":[],"what":"false"}],"cuts":[{"cells":1,"name":"RAM","open":false},{"cells":2,"name":"pad cell","open":true}],"depth":8,"free":2,"inv":1,"mode":"plain","pairs":[{"command":1,"end":"m/A[1]","kind":"false","number":1,"start":"a[0]","stimulus":{"inputs":["10","01"],"state":"-"},"verdict":"undecided","why":"free 0"},{"command":1,"end":"m/A[0]","kind":"false","number":2,"start":"a[1]","stimulus":{"inputs":["10","01"],"state":"-"},"verdict":"undecided","why":"free 0"},{"command":1,"end":"b","kind":"false","number":3,"start":"a[0]","stimulus":null,"verdict":"undecided","why":"cut"}],"reset":0,"skipped":[{"count":2,"name":"set_sense"}],"top":"chip","total":{"justified":0,"pairs":3,"refuted":0,"undecided":3}}
"#;
