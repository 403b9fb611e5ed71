// What is made, beside what another program made of the same numbers.
use crate::{trial_image, trial_text};
use std::test::Fail;

#[test]
fn images_are_made(rt: HostRuntime) -> Result<(), Fail> {
    let one = [
        1, 0, 1, 0, 1, 0, 0, 0, // head
        0, 0, 0, 0, 1, 0, 0, 0, // to itself
    ];
    let three = [
        3, 0, 3, 0, 1, 0, 0, 0, // head
        0, 0, 0, 0, 4, 0, 0, 0, // beyond the last node
        1, 0, 0, 0, 3, 0, 0, 0, // to the last node
        2, 0, 0, 0, 1, 0, 0, 0, // to the first node
    ];
    assert!(rt; trial_image(rt.alloc(), 1)?.as_slice() == one.as_slice());
    assert!(rt; trial_image(rt.alloc(), 3)?.as_slice() == three.as_slice());
    Ok(())
}

#[test]
fn text_is_made(rt: HostRuntime) -> Result<(), Fail> {
    let text = trial_text(rt.alloc())?;
    assert_eq!(rt; text.len(), 786);
    assert!(rt; text.starts_with(b"version 1; order little;\n"));
    assert!(rt; text.ends_with(b"constraint total : head.Count = size(Nodes);\n"));
    Ok(())
}
