//! How a MUD URL is printed.
use mud_url::mud_url;
use std::test::Fail;

/// The URL of RFC 8520, section 9.
#[test]
fn urls_are_printed(rt: HostRuntime) -> Result<(), Fail> {
    let url = mud_url(b"https://lighting.example.com/lightbulb2000")?;
    let text = format!(in rt.alloc(); "{url:?}")?;
    assert_eq!(rt;
        text.as_str(),
        "MudUrl(https://lighting.example.com/lightbulb2000)"
    );
    Ok(())
}
