//! What receipts tell of calls that one pass makes.
use super::calls::{Call, Stop};
use super::team::Team;
use commit_journal::NoKeep;
use std::sync::Wait;
use std::test::Fail;

/// The status and the stripes of a call by pass 0, its rounds, and how wide its commit was.
#[derive(Clone, Copy, Debug, PartialEq, Eq)]
struct Footprint {
    stripes: (u16, u64, u64),
    rounds: u32,
    wide: Option<u32>,
}

fn told_of<R: Wait>(rt: &R, team: &mut Team<NoKeep>, call: Call) -> Result<Footprint, Stop> {
    let told = team.ask(rt, 0, &call)?;
    Ok(Footprint {
        stripes: told.stripes(),
        rounds: told.receipt.rounds,
        wide: team.wide(0),
    })
}

// The filesystem gets the id 1, and /data/a and /data/a/f get 66 and 131, which lie in the stripes 2 and 3; the file that is put in
// place of /data/a/f gets 196, in stripe 4.
#[test]
fn receipts_have_the_stripes_and_the_width(rt: HostRuntime) -> Result<(), Fail> {
    let mut team = Team::open(rt.alloc(), 1, 9, 0, NoKeep)?;
    let filesystem = Call::new(0, b"PUT /data?resource=filesystem");
    let file = Call::new(0, b"PUT /data/a/f?resource=file");
    let read = Call::new(0, b"GET /data/a/f");
    let renamed = Call {
        conn: 0,
        line: b"PUT /data/g",
        rest: b"x-ms-rename-source: /data/a/f\r\nContent-Length: 0\r\n\r\n",
    };
    assert_eq!(rt;
        told_of(&rt, &mut team, filesystem)?.stripes,
        (201, 0, 0b11)
    );
    assert_eq!(rt; told_of(&rt, &mut team, file)?.stripes, (201, 0b1, 0b1110));
    let reading = told_of(&rt, &mut team, read)?;
    assert_eq!(rt; reading.stripes, (200, 0b1111, 0));
    assert_eq!(rt; (reading.rounds, reading.wide), (5, Some(4)));
    let again = told_of(&rt, &mut team, file)?;
    assert_eq!(rt; again.stripes, (201, 0b11, 0b1_1100));
    assert_eq!(rt; again.wide, Some(8));
    let moving = told_of(&rt, &mut team, renamed)?;
    assert_eq!(rt; moving.stripes, (201, 0b1, 0b1_0110));
    assert_eq!(rt; moving.wide, Some(7));
    Ok(())
}
