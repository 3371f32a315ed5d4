ghost use Rattle.std.specs.Prelude.{◌≡◌, ◌+◌, ◌-◌, ◌<◌, ◌≤◌, ◌∷◌, [], ◌++◌, Some, length, drop, slice_get, take, option_map, IfOk, OnOk, OnErr, IsTrue, vec_len, vec_capacity};
ghost use Rattle.std.specs.FinMap.{find, is_sorted};
ghost use Rattle.std.specs.FinMap.Entries.{where_key};
ghost use Rattle.inode_tree.specs.Ascending.{differs};
ghost use Rattle.inode_tree.specs.ChildLists.{name_cmp, first_above};
ghost use Rattle.inode_tree.specs.Pages.{ArePages, together, page_at, home, replaced, cut, with_link, joins_next, joins_before, settled, without_link};

use super::page::{Link, Page, begins_by, copied, put_copies};
use super::places::{place, place_above, put, take_out};
use path_text::Name;
use std::alloc::{AllocError, Global};

// The most names that a page has, how many stay in the first of two where it is cut, and the most that joined pages have.
const PAGE_MAX: usize = 256;

const CUT: usize = 128;

const FEW: usize = 128;

// The place of the page at which a name is at home.
pub(crate) fn home(pages: &[Page], name: &Name) -> usize
    requires { ArePages pages.now }
    ensures home { result ≡ home name.now pages.now }
    ensures within { result ≤ length pages.now - 1 }
{
    let mut low = 0;
    let mut high = pages.len();
    while low < high {
        let middle = low + (high - low) / 2;
        if begins_by(pages[middle].links(), name) {
            low = middle + 1;
        } else {
            high = middle;
        }
    }
    if low == 0 { 0 } else { low - 1 }
}

// The id to which a name leads.
pub(crate) fn found(pages: &[Page], name: &Name) -> Option<u64>
    requires { ArePages pages.now }
    ensures { result ≡ find name_cmp name.now (together pages.now) }
{
    if pages.is_empty() {
        return None;
    }
    let links = pages[home(pages, name)].links();
    match place(links, name) {
        Ok(at) => Some(links[at].1),
        Err(_) => None,
    }
}

// The first link whose name is greater than a name, and the first of all where none is given.
pub(crate) fn first_above<'a>(pages: &'a [Page], name: Option<&Name>) -> Option<&'a Link>
    requires { ArePages pages.now }
    ensures { option_map (λ link. link.now) result ≡ first_above (option_map (λ n. n.now) name.entry) (together pages.now) }
{
    match name {
        None => first_from(pages, 0),
        Some(name) => first_above_name(pages, name),
    }
}

fn first_above_name<'a>(pages: &'a [Page], name: &Name) -> Option<&'a Link>
    requires { ArePages pages.now }
    ensures { option_map (λ link. link.now) result ≡ first_above (Some name.now) (together pages.now) }
{
    if pages.is_empty() {
        return None;
    }
    let at = home(pages, name);
    let links = pages[at].links();
    let from = place_above(links, name);
    if from < links.len() {
        return Some(&links[from]);
    }
    first_from(pages, at + 1)
}

// The first link of the pages from a place on.
fn first_from(pages: &[Page], at: usize) -> Option<&Link>
    requires { ArePages pages.now }
    ensures { option_map (λ link. link.now) result ≡ slice_get (together (drop at pages.now)) 0 }
{
    if at < pages.len() {
        return Some(&pages[at].links()[0]);
    }
    None
}

// The links of the page at a place, none where there is no page, with room for so many more.
fn links_at(alloc: Global, pages: &[Page], at: usize, room: usize) -> Result<Vec<Link>, AllocError>
    requires pages { ArePages pages.now }
    requires room { room ≤ 256 }
    ensures links { IfOk result (λ links. links.items ≡ page_at pages.now at) }
    ensures sorted { IfOk result (λ links. IsTrue (is_sorted name_cmp links.items)) }
{
    if pages.len() <= at {
        return Ok(Vec::new(alloc));
    }
    let links = copied(alloc, pages[at].links(), room)?;
    Ok(links)
}

// Gives a name to an id. The one error is want of memory; then nothing changes.
pub(crate) fn link(
    alloc: Global,
    pages: &mut Vec<Page>,
    name: Name,
    id: u64,
) -> Result<(), AllocError>
    requires { ArePages pages.old.items }
    ensures pages { OnOk result (pages.new.items ≡ with_link name id pages.old.items) }
    ensures items_stay { OnErr result (pages.new.items ≡ pages.old.items) }
    ensures room_stays { OnErr result (vec_capacity pages.new - vec_len pages.new ≡ vec_capacity pages.old - vec_len pages.old) }
{
    let at = home(pages.as_slice(), &name);
    let mut links = links_at(alloc, pages.as_slice(), at, 1)?;
    put(&mut links, name, id)?;
    set_cut(alloc, pages, at, links)
}

// Puts links in place of the page at a place, as two pages where one would have too many.
fn set_cut(
    alloc: Global,
    pages: &mut Vec<Page>,
    at: usize,
    links: Vec<Link>,
) -> Result<(), AllocError>
    requires place { at ≤ vec_len pages.old }
    requires links { vec_len links ≤ 512 }
    ensures pages { OnOk result (pages.new.items ≡ replaced pages.old.items at 1 (cut links.items)) }
    ensures items_stay { OnErr result (pages.new.items ≡ pages.old.items) }
    ensures room_stays { OnErr result (vec_capacity pages.new - vec_len pages.new ≡ vec_capacity pages.old - vec_len pages.old) }
{
    if links.len() <= PAGE_MAX {
        let page = Page::new(alloc, links)?;
        pages.reserve(1)?;
        set_page(pages, at, page);
        return Ok(());
    }
    set_halves(alloc, pages, at, links.as_slice())
}

// Puts links in place of the page at a place as two pages.
fn set_halves(
    alloc: Global,
    pages: &mut Vec<Page>,
    at: usize,
    links: &[Link],
) -> Result<(), AllocError>
    requires place { at ≤ vec_len pages.old }
    requires least { 128 ≤ length links.now }
    requires most { length links.now ≤ 512 }
    ensures pages { OnOk result (pages.new.items ≡ replaced pages.old.items at 1 (take 128 links.now ∷ drop 128 links.now ∷ [])) }
    ensures items_stay { OnErr result (pages.new.items ≡ pages.old.items) }
    ensures room_stays { OnErr result (vec_capacity pages.new - vec_len pages.new ≡ vec_capacity pages.old - vec_len pages.old) }
{
    let first = Page::new(alloc, copied(alloc, &links[..CUT], 0)?)?;
    let second = Page::new(alloc, copied(alloc, &links[CUT..], 0)?)?;
    pages.reserve(2)?;
    set_pages(pages, at, first, second);
    Ok(())
}

// Puts a page in place of that at a place, or behind all.
fn set_page(pages: &mut Vec<Page>, at: usize, page: Page)
    requires place { at ≤ vec_len pages.old }
    requires room { vec_len pages.old < vec_capacity pages.old }
    ensures items { pages.new.items ≡ replaced pages.old.items at 1 (page ∷ []) }
    ensures len { vec_len pages.new ≤ vec_len pages.old + 1 }
    ensures place { at < vec_len pages.new }
    ensures capacity { vec_capacity pages.old ≤ vec_capacity pages.new }
{
    if at < pages.len() {
        pages[at] = page;
        return;
    }
    match pages.push(page) {
        Ok(()) => {}
        Err(_) => unreachable!(),
    }
}

// Puts two pages in place of that at a place, or behind all.
fn set_pages(pages: &mut Vec<Page>, at: usize, first: Page, second: Page)
    requires place { at ≤ vec_len pages.old }
    requires room { vec_len pages.old + 1 < vec_capacity pages.old }
    ensures { pages.new.items ≡ replaced pages.old.items at 1 (first ∷ second ∷ []) }
{
    set_page(pages, at, second);
    match pages.insert(at, first) {
        Ok(()) => {}
        Err(_) => unreachable!(),
    }
}

// Takes a name away. The one error is want of memory; then nothing changes.
pub(crate) fn unlink(alloc: Global, pages: &mut Vec<Page>, name: &Name) -> Result<(), AllocError>
    requires { ArePages pages.old.items }
    ensures pages { OnOk result (pages.new.items ≡ without_link name.now pages.old.items) }
    ensures items_stay { OnErr result (pages.new.items ≡ pages.old.items) }
    ensures room_stays { OnErr result (vec_capacity pages.new - vec_len pages.new ≡ vec_capacity pages.old - vec_len pages.old) }
{
    if pages.is_empty() {
        return Ok(());
    }
    match found(pages.as_slice(), name) {
        Some(_) => {
            let at = home(pages.as_slice(), name);
            take_link(alloc, pages, at, name)
        }
        None => Ok(()),
    }
}

// Takes a name out of the page at a place.
fn take_link(alloc: Global, pages: &mut Vec<Page>, at: usize, name: &Name) -> Result<(), AllocError>
    requires pages { ArePages pages.old.items }
    requires place { at < vec_len pages.old }
    ensures pages { OnOk result (pages.new.items ≡ settled pages.old.items at (where_key name_cmp (differs name_cmp name.now) (page_at pages.old.items at))) }
    ensures items_stay { OnErr result (pages.new.items ≡ pages.old.items) }
    ensures room_stays { OnErr result (vec_capacity pages.new - vec_len pages.new ≡ vec_capacity pages.old - vec_len pages.old) }
{
    let mut links = links_at(alloc, pages.as_slice(), at, 0)?;
    take_out(&mut links, name);
    settle(alloc, pages, at, links)
}

// Puts links in place of the page at a place, alone or joined with a neighbour, or takes the page away.
fn settle(
    alloc: Global,
    pages: &mut Vec<Page>,
    at: usize,
    links: Vec<Link>,
) -> Result<(), AllocError>
    requires pages { ArePages pages.old.items }
    requires place { at < vec_len pages.old }
    requires links { vec_len links ≤ 256 }
    ensures pages { OnOk result (pages.new.items ≡ settled pages.old.items at links.items) }
    ensures items_stay { OnErr result (pages.new.items ≡ pages.old.items) }
    ensures room_stays { OnErr result (vec_capacity pages.new - vec_len pages.new ≡ vec_capacity pages.old - vec_len pages.old) }
{
    if links.as_slice().is_empty() {
        drop(pages.remove(at));
        return Ok(());
    }
    if joins_next(pages.as_slice(), at, links.as_slice()) {
        return join_next(alloc, pages, at, links);
    }
    if joins_before(pages.as_slice(), at, links.as_slice()) {
        return join_before(alloc, pages, at, links);
    }
    pages[at] = Page::new(alloc, links)?;
    Ok(())
}

// Whether links have few names together with the page behind a place.
fn joins_next(pages: &[Page], at: usize, links: &[Link]) -> bool
    requires pages { ArePages pages.now }
    requires place { at < length pages.now }
    requires links { length links.now ≤ 256 }
    ensures { result ≡ joins_next pages.now at links.now }
{
    if at + 1 < pages.len() {
        return links.len() + pages[at + 1].links().len() <= FEW;
    }
    false
}

// Whether links have few names together with the page before a place.
fn joins_before(pages: &[Page], at: usize, links: &[Link]) -> bool
    requires pages { ArePages pages.now }
    requires place { at < length pages.now }
    requires links { length links.now ≤ 256 }
    ensures { result ≡ joins_before pages.now at links.now }
{
    if 0 < at {
        return pages[at - 1].links().len() + links.len() <= FEW;
    }
    false
}

// Puts links, with those of the page behind a place, in place of that page and the one at the place.
fn join_next(
    alloc: Global,
    pages: &mut Vec<Page>,
    at: usize,
    mut links: Vec<Link>,
) -> Result<(), AllocError>
    requires { at + 1 < vec_len pages.old }
    ensures pages { OnOk result (pages.new.items ≡ replaced pages.old.items at 2 ((links.items ++ page_at pages.old.items (at + 1)) ∷ [])) }
    ensures items_stay { OnErr result (pages.new.items ≡ pages.old.items) }
    ensures room_stays { OnErr result (vec_capacity pages.new - vec_len pages.new ≡ vec_capacity pages.old - vec_len pages.old) }
{
    put_copies(alloc, pages[at + 1].links(), &mut links)?;
    let page = Page::new(alloc, links)?;
    set_joined(pages, at, page);
    Ok(())
}

// Puts the links of the page before a place, and then these, in place of that page and the one at the place.
fn join_before(
    alloc: Global,
    pages: &mut Vec<Page>,
    at: usize,
    mut links: Vec<Link>,
) -> Result<(), AllocError>
    requires pages { ArePages pages.old.items }
    requires before { 0 < at }
    requires place { at < vec_len pages.old }
    requires links { vec_len links ≤ 256 }
    ensures pages { OnOk result (pages.new.items ≡ replaced pages.old.items (at - 1) 2 ((page_at pages.old.items (at - 1) ++ links.items) ∷ [])) }
    ensures items_stay { OnErr result (pages.new.items ≡ pages.old.items) }
    ensures room_stays { OnErr result (vec_capacity pages.new - vec_len pages.new ≡ vec_capacity pages.old - vec_len pages.old) }
{
    let mut before = links_at(alloc, pages.as_slice(), at - 1, links.len())?;
    before.append(&mut links)?;
    let page = Page::new(alloc, before)?;
    set_joined(pages, at - 1, page);
    Ok(())
}

// Puts a page in place of that at a place and the one behind it.
fn set_joined(pages: &mut Vec<Page>, at: usize, page: Page)
    requires { at + 1 < vec_len pages.old }
    ensures { pages.new.items ≡ replaced pages.old.items at 2 (page ∷ []) }
{
    pages[at] = page;
    drop(pages.remove(at + 1));
}

// Other owners of the same pages, with the same room. The one error is want of memory.
pub(crate) fn copied_pages(alloc: Global, pages: &Vec<Page>) -> Result<Vec<Page>, AllocError>
    ensures items { IfOk result (λ copied. copied.items ≡ pages.now.items) }
    ensures room { IfOk result (λ copied. vec_capacity copied ≡ vec_capacity pages.now) }
{
    let mut copied = Vec::with_capacity(alloc, pages.capacity())?;
    for page in pages.as_slice() {
        let at = copied.len();
        match copied.insert(at, page.copy()?) {
            Ok(()) => {}
            Err(_) => unreachable!(),
        }
    }
    Ok(copied)
}
