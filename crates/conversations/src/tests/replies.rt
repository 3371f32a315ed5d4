// Texts of replies that no conversation shows yet, behind what was there before.
ghost use Rattle.std.specs.Prelude.{IfOk};
ghost use Rattle.http.specs.StatusCode.{IsStatusCode};
ghost use Rattle.reply_text.specs.ReplyText.{CanSpell};

use acl_text::Perm;
use file_data::Piece;
use head_text::read_props;
use namespace_model::{Code, Denied, Field, FieldList, Kind, Media, Reply, Rule};
use path_text::{Path, read_plain};
use reply_text::{Last, fill, last_reply, spell};
use std::alloc::{AllocError, Global};
use std::test::Fail;

// The text of the reply to the entry with this number at the start of 1970.
fn text_of(alloc: Global, reply: &Reply, number: u64, head: bool) -> Result<Vec<u8>, AllocError>
    requires { CanSpell reply.now }
{
    let mut out = Vec::from_slice(alloc, b"before ")?;
    let slots = spell(alloc, reply, 0, head, &mut out)?;
    fill(out.as_mut_slice(), slots, number);
    Ok(out)
}

// The last five bytes of a file of ten.
fn part(alloc: Global) -> Result<Reply, AllocError>
    ensures { IfOk result CanSpell }
{
    let props = read_props(alloc, b"k=dg==").map_err(|_| AllocError)?;
    let body = Piece::new(Vec::from_slice(alloc, b"world")?);
    let fields = vec![in alloc;
        Field::ETag(Some(10)),
        Field::LastModified(784_111_777_000),
        Field::AcceptRanges,
        Field::ContentRange {
            from: 5,
            to: 9,
            len: 10
        },
        Field::ContentType(Media::Octets),
        Field::ResourceType(Kind::File),
        Field::Properties(props),
    ]?;
    Ok(Reply {
        status: 206,
        code: None,
        fields: FieldList::new(fields),
        body,
        denied: None,
    })
}

// A look at a node that was not modified.
fn not_modified(alloc: Global) -> Reply
    ensures { CanSpell result }
{
    Reply {
        status: 304,
        code: Some(Code::ConditionNotMet),
        fields: FieldList::new(Vec::new(alloc)),
        body: Piece::new(Vec::new(alloc)),
        denied: None,
    }
}

#[test]
fn a_part_of_a_file(rt: HostRuntime) -> Result<(), Fail> {
    let text = text_of(rt.alloc(), &part(rt.alloc())?, 11, false)?;
    assert_eq!(rt;
        text.as_slice(),
        b"before HTTP/1.1 206 Partial Content\r\nDate: Thu, 01 Jan 1970 00:00:00 GMT\r\nx-ms-request-id: 000000000000000B\r\nx-ms-version: 2020-08-04\r\nETag: \"0x000000000000000A\"\r\nLast-Modified: Sun, 06 Nov 1994 08:49:37 GMT\r\nAccept-Ranges: bytes\r\nContent-Range: bytes 5-9/10\r\nContent-Type: application/octet-stream\r\nx-ms-resource-type: file\r\nx-ms-properties: k=dg==\r\nContent-Length: 5\r\n\r\nworld".as_slice()
    );
    Ok(())
}

#[test]
fn nothing_was_modified(rt: HostRuntime) -> Result<(), Fail> {
    let alloc = rt.alloc();
    let text = text_of(alloc, &not_modified(alloc), 0xAB, false)?;
    assert_eq!(rt;
        text.as_slice(),
        b"before HTTP/1.1 304 Not Modified\r\nDate: Thu, 01 Jan 1970 00:00:00 GMT\r\nx-ms-request-id: 00000000000000AB\r\nx-ms-version: 2020-08-04\r\nx-ms-error-code: ConditionNotMet\r\n\r\n".as_slice()
    );
    Ok(())
}

fn denied(at: Path, want: Perm, have: Perm) -> Option<Denied> {
    Some(Denied {
        rule: Rule::NamedUser,
        at,
        want,
        have,
    })
}

// A denial to a request that ends its connection.
fn denial(alloc: Global) -> Result<Reply, AllocError>
    ensures { IfOk result CanSpell }
{
    let at = read_plain(alloc, b"/data/f").map_err(|_| AllocError)?;
    let want = Perm::new(2).ok_or(AllocError)?;
    let have = Perm::new(4).ok_or(AllocError)?;
    let fields = vec![in alloc; Field::Close]?;
    Ok(Reply {
        status: 403,
        code: Some(Code::AuthorizationPermissionMismatch),
        fields: FieldList::new(fields),
        body: Piece::new(Vec::new(alloc)),
        denied: denied(at, want, have),
    })
}

#[test]
fn a_denial(rt: HostRuntime) -> Result<(), Fail> {
    let text = text_of(rt.alloc(), &denial(rt.alloc())?, 5, true)?;
    assert_eq!(rt;
        text.as_slice(),
        b"before HTTP/1.1 403 Forbidden\r\nDate: Thu, 01 Jan 1970 00:00:00 GMT\r\nx-ms-request-id: 0000000000000005\r\nx-ms-version: 2020-08-04\r\nConnection: close\r\nx-ms-error-code: AuthorizationPermissionMismatch\r\nx-ms-denied-rule: named-user\r\nx-ms-denied-path: /data/f\r\nx-ms-denied-want: -w-\r\nx-ms-denied-have: r--\r\nContent-Length: 0\r\n\r\n".as_slice()
    );
    Ok(())
}

#[test]
fn a_busy_service(rt: HostRuntime) -> Result<(), Fail> {
    let mut text = Vec::new(rt.alloc());
    last_reply(rt.alloc(), Last::Busy, &mut text)?;
    assert_eq!(rt;
        text.as_slice(),
        b"HTTP/1.1 503 Service Unavailable\r\nx-ms-request-id: 0000000000000000\r\nx-ms-version: 2020-08-04\r\nConnection: close\r\nx-ms-error-code: ServerBusy\r\nContent-Length: 0\r\n\r\n".as_slice()
    );
    Ok(())
}
