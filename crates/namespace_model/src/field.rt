ghost use Rattle.std.specs.Prelude.{◌≡◌, IfOk};

use super::op::Kind;
use acl_text::Id;
use file_data::Piece;
use head_text::Props;
use lease_state::State;
use std::alloc::{AllocError, Global};
use std::marker::Model;

/// What the body of a reply is.
#[derive(Clone, Copy, Debug, PartialEq, Eq)]
pub enum Media {
    /// JSON (RFC 8259).
    Json,
    /// Bytes of which nothing is known.
    Octets,
}

/// A line of a reply that the request, the node or the operation gives. Moments are milliseconds since 1970, lengths and
/// positions are bytes.
#[derive(Drop)]
pub enum Field {
    /// The connection ends with this reply.
    Close,
    /// The ETag of a node: the number of the entry that last stamped it, `None` for the entry that is answered.
    ETag(Option<u64>),
    /// The moment of a node.
    LastModified(u64),
    /// Ranges of bytes can be asked for.
    AcceptRanges,
    /// The bytes that a body has: the first, the last, and the length of the file.
    ContentRange { from: u64, to: u64, len: u64 },
    ContentType(Media),
    /// Whether the node is a file or a directory.
    ResourceType(Kind),
    Owner(Id),
    Group(Id),
    /// The permissions, in nine letters and perhaps a `+`.
    Permissions(Piece),
    /// The access control lists.
    Acl(Piece),
    Properties(Props),
    LeaseState(State),
    /// Whether a lease keeps writers without its id out.
    LeaseStatus { locked: bool },
    /// Whether the lease has no end.
    LeaseDuration { infinite: bool },
    LeaseId(u128),
    /// How many seconds a broken lease still holds.
    LeaseTime(u64),
    /// The account has a hierarchical namespace.
    NamespaceEnabled,
    /// The token by which a listing or a batch goes on.
    Continuation(Piece),
    /// The length of a file whose bytes are not sent.
    ContentLength(u64),
}

impl Field {
    /// An equal field. The one error is want of memory.
    pub fn copy(&self, alloc: Global) -> Result<Field, AllocError>
        ensures { IfOk result (λ field. field ≡ self.now) }
    {
        Ok(match self {
            Field::Close => Field::Close,
            Field::ETag(number) => Field::ETag(*number),
            Field::LastModified(moment) => Field::LastModified(*moment),
            Field::AcceptRanges => Field::AcceptRanges,
            Field::ContentRange { from, to, len } => Field::ContentRange {
                from: *from,
                to: *to,
                len: *len,
            },
            Field::ContentType(media) => Field::ContentType(*media),
            Field::ResourceType(kind) => Field::ResourceType(*kind),
            Field::Owner(id) => Field::Owner(id.copy(alloc)?),
            Field::Group(id) => Field::Group(id.copy(alloc)?),
            Field::Permissions(text) => Field::Permissions(text.copy(alloc)?),
            Field::Acl(text) => Field::Acl(text.copy(alloc)?),
            Field::Properties(props) => Field::Properties(props.copy(alloc)?),
            Field::LeaseState(state) => Field::LeaseState(*state),
            Field::LeaseStatus { locked } => Field::LeaseStatus { locked: *locked },
            Field::LeaseDuration { infinite } => Field::LeaseDuration {
                infinite: *infinite,
            },
            Field::LeaseId(id) => Field::LeaseId(*id),
            Field::LeaseTime(seconds) => Field::LeaseTime(*seconds),
            Field::NamespaceEnabled => Field::NamespaceEnabled,
            Field::Continuation(token) => Field::Continuation(token.copy(alloc)?),
            Field::ContentLength(len) => Field::ContentLength(*len),
        })
    }
}

/// The lines of a reply. A contract sees the list of them.
#[derive(Drop)]
pub struct FieldList {
    items: Vec<Field>,
}

impl Model for FieldList {
    ghost use Rattle.std.specs.Prelude.{List};
    ghost use Rattle.namespace_model.specs.declared.field.Field.{Field};

    ghost Value = { List Field };

    ghost view = { λ f. f.items.items };
}

impl FieldList {
    /// Keeps the lines that it is given.
    pub fn new(items: Vec<Field>) -> FieldList
        ensures { result ≡ items.items }
    {
        FieldList { items }
    }

    /// The lines.
    pub fn items(&self) -> &[Field]
        ensures { result.now ≡ self.now }
    {
        self.items.as_slice()
    }

    /// A list of the same lines. The one error is want of memory.
    pub fn copy(&self, alloc: Global) -> Result<FieldList, AllocError>
        ensures { IfOk result (λ list. list ≡ self.now) }
    {
        Ok(FieldList {
            items: copy_fields(alloc, self.items.as_slice())?,
        })
    }
}

fn copy_fields(alloc: Global, fields: &[Field]) -> Result<Vec<Field>, AllocError>
    ensures { IfOk result (λ copied. copied.items ≡ fields.now) }
{
    let mut copied = Vec::with_capacity(alloc, fields.len())?;
    for field in fields {
        copied.push(field.copy(alloc)?)?;
    }
    Ok(copied)
}
