//! Derivation files with their verdicts and faults.

use crate::called::called;
use std::alloc::Global;
use std::test::Fail;

// A file whose nine items are allowed: the lines 1 to 10. The next line is the eleventh.
pub const FILE: &str = "andromeda derivation 1
B T [] btype
R Nat ; 0
J T s0() [] rule 0
B t s0() [] bterm 1
R O ; 2
J t s1() s0() [] rulewith 1 2
M n 2
R S 0 ; 2
V 4 x 1
";

// The lines after these, with the verdict.
const VERDICTS: [(&str, &str); 55] = [
    // The boundary of a type.
    (
        "B T [] btype",
        "accepted 3 rules, 5 entries, 0 shown, level 1",
    ),
    ("J T s0() [] btype", "rejected 9 kind"),
    ("B t s0() [] btype", "rejected 9 conclusion"),
    ("B T [v4] btype", "rejected 9 set"),
    // The boundary of a term.
    (
        "B t s0() [] bterm 1",
        "accepted 3 rules, 5 entries, 0 shown, level 1",
    ),
    ("B t s0() [] bterm 4", "rejected 9 reference"),
    ("B t s0() [] bterm 0", "rejected 9 kind"),
    ("J T s0() [] bterm 1", "rejected 9 kind"),
    ("B t s0() [] bterm 3", "rejected 9 premise"),
    ("B T [] bterm 1", "rejected 9 conclusion"),
    ("B t s0() [m0] bterm 1", "rejected 9 set"),
    // A rule at its arguments, without the boundary of its conclusion and with it.
    (
        "J t s1() s0() [] rule 1",
        "accepted 3 rules, 5 entries, 0 shown, level 5",
    ),
    (
        "J t s2(0.s1()) s0() [] rule 2 3",
        "accepted 3 rules, 5 entries, 0 shown, level 5",
    ),
    ("J t s2(0.s1()) s0() [] rule 2 0", "rejected 9 kind"),
    ("J t s2(0.s1()) s0() [] rule 2 1", "rejected 9 premise"),
    (
        "J t s2(0.s1()) s0() [] rulewith 2 2 3",
        "accepted 3 rules, 5 entries, 0 shown, level 1",
    ),
    ("J t s1() s0() [] rulewith 1 9", "rejected 9 reference"),
    ("J t s1() s0() [] rulewith 1 1", "rejected 9 kind"),
    ("B t s0() [] rulewith 1 2", "rejected 9 kind"),
    ("J t s1() s0() [] rulewith 1 0", "rejected 9 premise"),
    ("J t s2(0.s1()) s0() [] rulewith 2 2", "rejected 9 premise"),
    (
        "J t s2(0.s1()) s0() [] rulewith 2 2 1",
        "rejected 9 premise",
    ),
    (
        "J t s2(0.s1()) s0() [] rulewith 2 2 3 3",
        "rejected 9 premise",
    ),
    ("J t s0() s0() [] rulewith 1 2", "rejected 9 conclusion"),
    (
        "J t s2(0.s0()) s0() [] rulewith 2 2 3",
        "rejected 9 conclusion",
    ),
    (
        "J t s2(1.s1()) s0() [] rulewith 2 2 3",
        "rejected 9 conclusion",
    ),
    ("J t s1() s0() [v4] rulewith 1 2", "rejected 9 set"),
    // Marks.
    ("W 3", "accepted 3 rules, 4 entries, 1 shown, level 1"),
    ("W 4", "rejected 9 reference"),
    ("W 0", "rejected 9 kind"),
    // Metavariables.
    ("M A 0", "accepted 3 rules, 4 entries, 0 shown, level 1"),
    ("M A 4", "rejected 9 reference"),
    ("M A 1", "rejected 9 kind"),
    // Variables.
    ("V 5 y 1", "accepted 3 rules, 4 entries, 0 shown, level 1"),
    ("V 4 y 9", "rejected 9 number"),
    ("V 5 y 4", "rejected 9 reference"),
    ("V 5 y 0", "rejected 9 kind"),
    ("V 5 y 3", "rejected 9 premise"),
    // Rules.
    ("R El ; 0", "accepted 4 rules, 4 entries, 0 shown, level 1"),
    (
        "R El 0 ; 0",
        "accepted 4 rules, 4 entries, 0 shown, level 1",
    ),
    ("R Nat 9 ; 0", "rejected 9 name"),
    ("R El 1 ; 0", "rejected 9 reference"),
    ("R El 0 ; 4", "rejected 9 reference"),
    ("R El 0 ; 1", "rejected 9 kind"),
    ("R El 0 0 ; 0", "rejected 9 kind"),
    // Names.
    (
        "V 18446744073709551615 x 1",
        "accepted 3 rules, 4 entries, 0 shown, level 1",
    ),
    ("M α 0", "accepted 3 rules, 4 entries, 0 shown, level 1"),
    ("M _x 0", "accepted 3 rules, 4 entries, 0 shown, level 1"),
    ("M n 0", "accepted 3 rules, 4 entries, 0 shown, level 1"),
    ("R été ; 0", "accepted 4 rules, 4 entries, 0 shown, level 1"),
    ("R n ; 0", "accepted 4 rules, 4 entries, 0 shown, level 1"),
    (
        "R Rule ; 0",
        "accepted 4 rules, 4 entries, 0 shown, level 1",
    ),
    // The first of two.
    ("B T [] btype\nW 0\nW 9", "rejected 10 kind"),
    ("W 9\nW 0\nR O ; 0", "rejected 9 reference"),
    // A variable at its type.
    (
        "J t v4 s0() [v4] var 4",
        "accepted 3 rules, 5 entries, 0 shown, level 1",
    ),
];

// The status of a verdict or a fault.
fn status_of(text: &str) -> u8 {
    if text.starts_with("accepted ") {
        0
    } else if text.starts_with("rejected ") {
        15
    } else {
        16
    }
}

/// Whether `check` writes this line for the bytes, with its status.
pub fn checks(alloc: Global, bytes: &[u8], line: &str) -> Result<bool, Fail> {
    let text = format!(in alloc; "{line}\n")?;
    Ok(called(alloc, "check", bytes)?.is(status_of(line), &text))
}

#[test]
fn each_item_has_its_verdict(rt: HostRuntime) -> Result<(), Fail> {
    let alloc = rt.alloc();
    for (lines, verdict) in VERDICTS {
        let file = format!(in alloc; "{FILE}{lines}\nend\n")?;
        assert!(rt; checks(alloc, file.as_bytes(), verdict)?, "{lines}");
    }
    Ok(())
}

// Whole files, with their verdicts or their faults.
const WHOLE: [(&str, &str); 22] = [
    (
        "andromeda derivation 1\nend\n",
        "accepted 0 rules, 0 entries, 0 shown, level 0",
    ),
    (
        "andromeda derivation 1\nB T [] btype\nR Nat ; 0\nB T [] btype\nend\n",
        "accepted 1 rules, 2 entries, 0 shown, level 0",
    ),
    // A number counts what stands before its line.
    (
        "andromeda derivation 1\nB T [] btype\nR Nat ; 0\nW 1\nJ T s0() [] rule 0\nend\n",
        "rejected 2 reference",
    ),
    // The version.
    ("andromeda derivation 3\nend\n", "error line 1 version"),
    ("andromeda derivation 0\n", "error line 1 version"),
    ("andromeda derivation 3\nB\n", "error line 1 version"),
    ("andromeda derivation 3", "error line 1 form"),
    ("andromeda derivation 03\nend\n", "error line 1 form"),
    ("andromeda derivation 01\nend\n", "error line 1 form"),
    ("andromeda derivation 1 \nend\n", "error line 1 form"),
    ("andromeda derivation \nend\n", "error line 1 form"),
    ("", "error line 1 form"),
    ("\n", "error line 1 form"),
    // A line that is missing, or lacks its line feed.
    ("andromeda derivation 1\n", "error line 2 form"),
    ("andromeda derivation 1\nend", "error line 2 form"),
    (
        "andromeda derivation 1\nB T [] btype\n",
        "error line 3 form",
    ),
    ("andromeda derivation 1\r\nend\r\n", "error line 1 form"),
    ("andromeda derivation 1\n\nend\n", "error line 2 form"),
    // What stands after the end.
    ("andromeda derivation 1\nend\nW 0\n", "error line 3 form"),
    ("andromeda derivation 1\nend\nx", "error line 3 form"),
    ("andromeda derivation 1\nend\n\n", "error line 3 form"),
    ("andromeda derivation 1\nend\nend\n", "error line 3 form"),
];

#[test]
fn each_file_has_its_line(rt: HostRuntime) -> Result<(), Fail> {
    for (file, line) in WHOLE {
        assert!(rt; checks(rt.alloc(), file.as_bytes(), line)?, "{file}");
    }
    Ok(())
}

#[test]
fn bytes_that_are_no_text_are_a_fault_of_their_line(rt: HostRuntime) -> Result<(), Fail> {
    for (file, line) in [
        (
            b"andromeda derivation 1\nB T [] btype\nR N\xFFt ; 0\nend\n".as_slice(),
            "error line 3 form",
        ),
        (
            b"andromeda derivation 1\nB T [] btype\nM \xFF 0\nend\n".as_slice(),
            "error line 3 form",
        ),
        (b"\xFF".as_slice(), "error line 1 form"),
        (
            b"andromeda derivation 3\n\xFF".as_slice(),
            "error line 1 version",
        ),
    ] {
        assert!(rt; checks(rt.alloc(), file, line)?, "{line}");
    }
    Ok(())
}
