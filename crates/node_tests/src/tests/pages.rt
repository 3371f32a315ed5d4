// The pages on which the names of a directory stand.
use inode_tree::{Children, NodeId};
use path_text::{Name, read_plain};
use std::alloc::Global;
use std::test::Fail;

// The name `c` with three digits.
fn numbered_name(alloc: Global, number: u64) -> Result<Name, Fail> {
    let text = format!(in alloc; "/abc/c{number:03}")?;
    match read_plain(alloc, text.as_bytes())?.names().first() {
        Some(name) => Ok(name.copy(alloc)?),
        None => Err(Fail::new("no name")),
    }
}

// Gives names to ids, one after the other.
fn link_names(alloc: Global, children: &mut Children, from: u64, count: u64) -> Result<(), Fail> {
    for place in 0..count {
        let number = from.saturating_add(place);
        children.link(alloc, numbered_name(alloc, number)?, NodeId(number))?;
    }
    Ok(())
}

// Takes names away, one after the other.
fn unlink_names(alloc: Global, children: &mut Children, from: u64, count: u64) -> Result<(), Fail> {
    for place in 0..count {
        let number = from.saturating_add(place);
        children.unlink(alloc, &numbered_name(alloc, number)?)?;
    }
    Ok(())
}

// How many names the first three pages have; where there is no page, 0.
fn page_lens(children: &Children) -> (usize, usize, usize) {
    (
        children.page_len(0).unwrap_or(0),
        children.page_len(1).unwrap_or(0),
        children.page_len(2).unwrap_or(0),
    )
}

// The lengths of the pages of 300 names put in order, without the first hundred, and then without `c128` to `c227`.
fn lens_of_three_hundred(
    alloc: Global,
) -> Result<
    (
        (usize, usize, usize),
        (usize, usize, usize),
        (usize, usize, usize),
    ),
    Fail,
> {
    let mut children = Children::new(alloc);
    link_names(alloc, &mut children, 0, 300)?;
    let filled = page_lens(&children);
    unlink_names(alloc, &mut children, 0, 100)?;
    let thinned = page_lens(&children);
    unlink_names(alloc, &mut children, 128, 100)?;
    Ok((filled, thinned, page_lens(&children)))
}

#[test]
fn names_stand_in_pages(rt: HostRuntime) -> Result<(), Fail> {
    let lens = lens_of_three_hundred(rt.alloc())?;
    assert_eq!(rt; lens.0, (128, 172, 0));
    assert_eq!(rt; lens.1, (28, 172, 0));
    assert_eq!(rt; lens.2, (100, 0, 0));
    Ok(())
}
