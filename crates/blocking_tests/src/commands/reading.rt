//! How scripts are read.
use blk_commands::script::{ScriptFault, read_script};
use std::test::Fail;

// Scripts, with the setting, the plan of the starts, and the number of instructions.
const SCRIPTS: &[(&str, Option<&str>, &[bool], usize)] = &[
    ("", None, &[], 0),
    (
        "setting 7\nstarts +-\nspawn\njob 1 *\n",
        Some("7"),
        &[false, true],
        2,
    ),
    (
        "# one\nstarts -\n\nsetting a  b \n# two\nsweep",
        Some("a  b "),
        &[true],
        1,
    ),
    ("setting \n", Some(""), &[], 0),
    (
        "new 4\nask 0 read 2\nown 0 *\nio 1 b 6162\nio 1 b -\nio 1 fault 3\nask 0 mut\nown 0\ndrop 0\n",
        None,
        &[],
        9,
    ),
];

#[test]
fn scripts_are_read(rt: HostRuntime) -> Result<(), Fail> {
    for (text, setting, plan, instructions) in SCRIPTS {
        match read_script(rt.alloc(), text) {
            Ok(script) => {
                assert_eq!(rt;
                    script.setting.as_ref().map(|text| text.as_str()),
                    *setting,
                    "of {text:?}"
                );
                assert_eq!(rt; script.plan.as_slice(), *plan, "of {text:?}");
                assert_eq!(rt; script.instructions.len(), *instructions, "of {text:?}");
            }
            Err(_) => assert!(rt; false, "of {text:?}"),
        }
    }
    Ok(())
}

#[test]
fn first_line_that_is_no_step_is_counted(rt: HostRuntime) {
    assert_eq!(rt;
        read_script(rt.alloc(), "spawn\nspawn 1\n").err(),
        Some(ScriptFault::NotAStep(2))
    );
}
