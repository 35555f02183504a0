// Why an item of a configuration is refused, in words.

use motion_history::{CamFault, ConfigFault};
use std::test::Fail;

#[test]
fn says_why_an_item_is_refused(rt: HostRuntime) -> Result<(), Fail> {
    let cases = [
        (ConfigFault::NameUsed, "the name is used"),
        (
            ConfigFault::Table(CamFault::NotRising(3)),
            "row 3 does not rise",
        ),
        (ConfigFault::TooMany, "there are too many"),
    ];
    for (fault, words) in cases {
        let text = format!(in rt.alloc(); "{fault}")?;
        assert_eq!(rt; text.as_str(), words);
    }
    Ok(())
}
