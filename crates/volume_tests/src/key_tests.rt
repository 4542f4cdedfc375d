// A coordinate is a key of a map by its value.
use key_counts::Ratio;
use std::collections::HashMap;
use std::test::Fail;

#[test]
fn hashes_ratios_by_value(rt: HostRuntime) -> Result<(), Fail> {
    let mut places: HashMap<Ratio, u32> = HashMap::new(rt.alloc());
    places.insert(Ratio::scaled(50, -100), 7)?;
    assert_eq!(rt; places.get(&Ratio::scaled(5, -10)).copied(), Some(7));
    assert_eq!(rt; places.get(&Ratio::whole(5)).copied(), None);
    Ok(())
}
