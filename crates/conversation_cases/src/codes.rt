// Which codes of errors were seen in replies.
use super::reply::has_text;
use std::alloc::{AllocError, Global};

/// The codes that a reply to a request may have: all of the table but `NotBuiltYet`, which nothing answers.
const CODES: [&str; 38] = [
    "InvalidUri",
    "InvalidResourceName",
    "InvalidQueryParameterValue",
    "OutOfRangeQueryParameterValue",
    "MissingRequiredQueryParameter",
    "MissingRequiredHeader",
    "InvalidHeaderValue",
    "UnsupportedHeader",
    "InvalidInput",
    "InvalidAcl",
    "InvalidSourceUri",
    "InvalidFlushPosition",
    "PositionBelowLength",
    "FileTooLarge",
    "AuthorizationPermissionMismatch",
    "FilesystemNotFound",
    "PathNotFound",
    "SourcePathNotFound",
    "RenameDestinationParentPathNotFound",
    "UnsupportedHttpVerb",
    "FilesystemAlreadyExists",
    "PathAlreadyExists",
    "ResourceTypeMismatch",
    "DirectoryNotEmpty",
    "InvalidRenameSourcePath",
    "RenameTooLong",
    "ConditionNotMet",
    "LeaseIdMissing",
    "LeaseIdMismatchWithBlobOperation",
    "LeaseLost",
    "LeaseAlreadyPresent",
    "LeaseIdMismatchWithLeaseOperation",
    "LeaseNotPresentWithLeaseOperation",
    "LeaseIsBreakingAndCannotBeAcquired",
    "LeaseIsBreakingAndCannotBeChanged",
    "LeaseIsBrokenAndCannotBeRenewed",
    "UnsupportedContentEncoding",
    "InvalidRange",
];

/// The codes that no reply had so far.
#[derive(Drop)]
pub struct Unseen {
    codes: Vec<&'static str>,
}

impl Unseen {
    /// All of them.
    pub fn new(alloc: Global) -> Result<Unseen, AllocError> {
        let codes = CODES.as_slice().to_vec(alloc)?;
        Ok(Unseen { codes })
    }

    /// Takes out those that stand in what was written.
    pub fn see(&mut self, alloc: Global, written: &[u8]) -> Result<(), AllocError> {
        let mut codes = Vec::new(alloc);
        for code in self.codes.iter() {
            let line = format!(in alloc; "\r\nx-ms-error-code: {code}\r\n")?;
            if !has_text(written, line.as_bytes()) {
                codes.push(*code)?;
            }
        }
        self.codes = codes;
        Ok(())
    }

    /// How many were seen, and how many there are.
    pub fn counts(&self) -> (usize, usize) {
        (CODES.len().saturating_sub(self.codes.len()), CODES.len())
    }
}
