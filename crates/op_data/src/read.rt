ghost use Rattle.std.specs.Prelude.{◌≡◌, ◌<◌, ◌≤◌, ◌+◌, ◌++◌, IfOk, IfSome, OnOk, Some, length, slice_range};
ghost use Rattle.inode_tree.specs.Inodes.{node_of};
ghost use Rattle.namespace_model.specs.Outcomes.{answered};
ghost use Rattle.namespace_model.specs.ReadFile.{bytes_read, content_fields, last_byte, part_read, whole_read};
ghost use Rattle.namespace_model.specs.Replies.{with_body};
ghost use Rattle.namespace_model.specs.Sound.{IsRange};
ghost use Rattle.path_walk.specs.Calls.{entry_of};
ghost use Rattle.op_data.specs.Tasks.{IsFileOf, of_read};

use file_data::{FileData, Piece};
use head_text::Range;
use inode_tree::NodeRef;
use namespace_model::{Code, Field, Kind, Media, Reply};
use path_walk::{Call, put_lease, put_properties, put_stamps, refusal, success, unmet_look};
use std::alloc::{AllocError, Global};

// What a read replies of a file: that a condition isn't met, or its bytes.
pub(crate) fn read(
    alloc: Global,
    call: &Call<'_>,
    range: Option<Range>,
    node: &NodeRef,
    file: &FileData,
) -> Result<Reply, AllocError>
    requires file { IsFileOf node.now file.now }
    requires range { IfSome range IsRange }
    ensures { IfOk result (λ reply. of_read (entry_of call.now) range (node_of node.now) ≡ answered reply) }
{
    if let Some(reply) = unmet_look(alloc, &call.request.cond, node) {
        return Ok(reply);
    }
    match range {
        None => read_whole(alloc, call, node, file),
        Some(range) => read_range(alloc, call, range, node, file),
    }
}

// All of the bytes.
fn read_whole(
    alloc: Global,
    call: &Call<'_>,
    node: &NodeRef,
    file: &FileData,
) -> Result<Reply, AllocError>
    ensures { IfOk result (λ reply. whole_read (entry_of call.now) (node_of node.now) file.now.committed ≡ answered reply) }
{
    let mut fields = Vec::new(alloc);
    put_stamps(&mut fields, node)?;
    fields.push(Field::AcceptRanges)?;
    put_content(alloc, &mut fields, node, call.moment)?;
    let bytes = bytes_of(alloc, file, 0, file.len())?;
    Ok(with_body(alloc, 200, fields, bytes))
}

// The bytes of a range, or that it begins at the end of the file or behind it.
fn read_range(
    alloc: Global,
    call: &Call<'_>,
    range: Range,
    node: &NodeRef,
    file: &FileData,
) -> Result<Reply, AllocError>
    requires range { IsRange range }
    ensures { IfOk result (λ reply. bytes_read (entry_of call.now) (node_of node.now) file.now.committed (Some range) ≡ answered reply) }
{
    let len = file.len();
    if len <= range.from {
        return Ok(refusal(alloc, Code::InvalidRange));
    }
    read_part(
        alloc,
        call,
        range.from,
        last_byte(range.to, len),
        node,
        file,
    )
}

// The last byte of a range, cut to the last byte of a file that has some.
fn last_byte(to: Option<u64>, len: u64) -> u64
    requires { 0 < len }
    ensures { result ≡ last_byte to len }
{
    match to {
        None => len - 1,
        Some(to) => to.min(len - 1),
    }
}

// The bytes from one place to another, both of them read.
fn read_part(
    alloc: Global,
    call: &Call<'_>,
    from: u64,
    to: u64,
    node: &NodeRef,
    file: &FileData,
) -> Result<Reply, AllocError>
    requires ordered { from ≤ to }
    requires within { to < length file.now.committed }
    ensures { IfOk result (λ reply. part_read (entry_of call.now) (node_of node.now) file.now.committed from to ≡ answered reply) }
{
    let len = file.len();
    let mut fields = Vec::new(alloc);
    put_stamps(&mut fields, node)?;
    fields.push(Field::AcceptRanges)?;
    fields.push(Field::ContentRange { from, to, len })?;
    put_content(alloc, &mut fields, node, call.moment)?;
    let bytes = bytes_of(alloc, file, from, to - from + 1)?;
    Ok(with_body(alloc, 206, fields, bytes))
}

// Puts the lines from Content-Type on: that the body is bytes of a file, its properties, and its lease.
fn put_content(
    alloc: Global,
    fields: &mut Vec<Field>,
    node: &NodeRef,
    moment: u64,
) -> Result<(), AllocError>
    ensures { OnOk result (fields.new.items ≡ fields.old.items ++ content_fields (node_of node.now) moment) }
{
    fields.push(Field::ContentType(Media::Octets))?;
    fields.push(Field::ResourceType(Kind::File))?;
    put_properties(alloc, fields, node, false)?;
    put_lease(fields, node, moment)
}

// So many bytes of a file, from one of them on: they are copied here, and nowhere else.
fn bytes_of(alloc: Global, file: &FileData, from: u64, n: u64) -> Result<Vec<u8>, AllocError>
    requires { from + n ≤ length file.now.committed }
    ensures { IfOk result (λ bytes. bytes.items ≡ slice_range file.now.committed from (from + n)) }
{
    let mut bytes = Vec::new(alloc);
    file.read(from, n, &mut bytes)?;
    Ok(bytes)
}

// A reply of this status with these lines and this body.
fn with_body(alloc: Global, status: u16, fields: Vec<Field>, bytes: Vec<u8>) -> Reply
    ensures { result ≡ with_body status fields.items bytes.items }
{
    let mut reply = success(alloc, status, fields);
    reply.body = Piece::new(bytes);
    reply
}
