use crate::is_json;
use std::test::Fail;

#[test]
fn a_name_is_json_by_its_last_letters(rt: HostRuntime) -> Result<(), Fail> {
    for (name, expected) in [
        ("a.json", true),
        (".geojson", true),
        ("a.JSON", false),
        ("a.json.txt", false),
        ("geojson", false),
    ] {
        assert_eq!(rt; is_json(name), expected, "{name}");
    }
    Ok(())
}
