// The form of a file: what is sent, when, and what comes back.
use super::draft::Draft;
use case_text::bytes_of;
use conn_io::LAST_MOMENT;
use std::alloc::{AllocError, Global};

/// A conversation: the words behind `pipe`, the requests, the replies and the status at the end.
#[derive(Drop)]
pub struct Conversation {
    pub words: Vec<String>,
    pub requests: Vec<Request>,
    pub replies: Vec<Reply>,
    pub status: u8,
}

/// What is sent at one moment.
#[derive(Drop)]
pub struct Request {
    pub bytes: Vec<u8>,
    pub moment: u64,
}

/// A reply: its head and body where it is given whole, else marks of it.
#[derive(Drop)]
pub struct Reply {
    pub head: Vec<u8>,
    pub body: Vec<u8>,
    pub marks: Vec<Mark>,
}

/// What a reply has, or has not.
#[derive(Drop)]
pub enum Mark {
    Line(Vec<u8>),
    NoHeader(Vec<u8>),
    InBody(Vec<u8>),
}

impl Request {
    /// Its head with the empty line behind it, and what stands behind that.
    pub fn parts(&self) -> (&[u8], &[u8]) {
        let bytes = self.bytes.as_slice();
        let end = bytes
            .windows(4)
            .position(|end| end == b"\r\n\r\n".as_slice());
        match end {
            Some(at) => bytes
                .split_at_checked(at.saturating_add(4))
                .unwrap_or((bytes, b"".as_slice())),
            None => (bytes, b"".as_slice()),
        }
    }
}

impl Conversation {
    /// How many bytes are sent.
    pub fn bytes_sent(&self) -> usize {
        let mut sent = 0usize;
        for request in self.requests.iter() {
            sent = sent.saturating_add(request.bytes.len());
        }
        sent
    }

    /// Where each request ends in what is sent, in bytes.
    pub fn request_ends(&self, alloc: Global) -> Result<Vec<usize>, AllocError> {
        let mut ends = Vec::new(alloc);
        let mut sent = 0usize;
        for request in self.requests.iter() {
            sent = sent.saturating_add(request.bytes.len());
            ends.push(sent)?;
        }
        Ok(ends)
    }

    /// Whether the request of this number, from 0, is a HEAD, to which a reply has no body.
    pub fn is_head(&self, number: usize) -> bool {
        self.requests
            .get(number)
            .is_some_and(|request| request.bytes.as_slice().starts_with(b"HEAD "))
    }
}

#[derive(Drop)]
struct Reading {
    alloc: Global,
    moment: u64,
    draft: Option<Draft>,
    reply: Option<Reply>,
    told: Conversation,
}

/// The conversation of a file, or the number of the first line that cannot be read.
pub fn read(alloc: Global, text: &str) -> Result<Result<Conversation, usize>, AllocError> {
    let mut reading = Reading::new(alloc);
    let mut number = 0usize;
    for line in text.lines() {
        number = number.saturating_add(1);
        if !reading.line(line)? {
            return Ok(Err(number));
        }
    }
    reading.end()?;
    Ok(Ok(reading.told))
}

impl Reading {
    fn new(alloc: Global) -> Reading {
        Reading {
            alloc,
            moment: 0,
            draft: None,
            reply: None,
            told: Conversation {
                words: Vec::new(alloc),
                requests: Vec::new(alloc),
                replies: Vec::new(alloc),
                status: 0,
            },
        }
    }

    // Takes a line, and answers whether it could be read.
    fn line(&mut self, text: &str) -> Result<bool, AllocError> {
        let (mark, rest) = text.split_once(' ').unwrap_or((text, ""));
        if mark.is_empty() {
            self.end()?;
            return Ok(rest.is_empty());
        }
        match bytes_of(self.alloc, rest)? {
            None => Ok(mark == "#"),
            Some(bytes) => self.marked(mark, rest, bytes.as_slice()),
        }
    }

    fn marked(&mut self, mark: &str, rest: &str, bytes: &[u8]) -> Result<bool, AllocError> {
        match mark.as_bytes().first() {
            Some(b'#') => Ok(true),
            Some(b'>') => self.sent(mark, bytes),
            Some(b'<' | b'~') => self.received(mark, bytes),
            Some(b'@') => self.at(rest),
            Some(b'=') => Ok(self.ends_with(rest)),
            _ if mark == "options:" => self.options(rest),
            _ => Ok(false),
        }
    }

    fn sent(&mut self, mark: &str, bytes: &[u8]) -> Result<bool, AllocError> {
        self.end_reply()?;
        let alloc = self.alloc;
        let draft = self.draft.get_or_insert_with(|| Draft::new(alloc));
        match mark {
            ">" => draft.line(alloc, bytes)?,
            ">|" => draft.body(bytes)?,
            ">>" => {
                draft.raw(bytes)?;
                draft.raw(b"\r\n")?;
            }
            ">>|" => draft.raw(bytes)?,
            _ => return Ok(false),
        }
        Ok(true)
    }

    fn received(&mut self, mark: &str, bytes: &[u8]) -> Result<bool, AllocError> {
        self.end_request()?;
        let alloc = self.alloc;
        let reply = self.reply.get_or_insert_with(|| Reply::new(alloc));
        reply.line(alloc, mark, bytes)
    }

    fn at(&mut self, rest: &str) -> Result<bool, AllocError> {
        self.end()?;
        match rest.parse::<u64>() {
            Ok(moment) if moment <= LAST_MOMENT => {
                self.moment = moment;
                Ok(true)
            }
            _ => Ok(false),
        }
    }

    fn ends_with(&mut self, rest: &str) -> bool {
        match rest.parse::<u8>() {
            Ok(status) => {
                self.told.status = status;
                true
            }
            Err(_) => false,
        }
    }

    fn options(&mut self, rest: &str) -> Result<bool, AllocError> {
        for word in rest.split_whitespace() {
            self.told.words.push(String::from_str(self.alloc, word)?)?;
        }
        Ok(true)
    }

    fn end(&mut self) -> Result<(), AllocError> {
        self.end_request()?;
        self.end_reply()
    }

    fn end_request(&mut self) -> Result<(), AllocError> {
        match self.draft.take() {
            None => Ok(()),
            Some(draft) => {
                let request = Request {
                    bytes: draft.bytes(self.alloc)?,
                    moment: self.moment,
                };
                self.told.requests.push(request).map_err(AllocError::from)
            }
        }
    }

    fn end_reply(&mut self) -> Result<(), AllocError> {
        match self.reply.take() {
            None => Ok(()),
            Some(reply) => self.told.replies.push(reply).map_err(AllocError::from),
        }
    }
}

impl Reply {
    fn new(alloc: Global) -> Reply {
        Reply {
            head: Vec::new(alloc),
            body: Vec::new(alloc),
            marks: Vec::new(alloc),
        }
    }

    fn line(&mut self, alloc: Global, mark: &str, bytes: &[u8]) -> Result<bool, AllocError> {
        match mark {
            "<" | "<|" if self.marks.is_empty() => self.whole(mark, bytes),
            "~" | "~!" | "~|" if self.head.is_empty() => self.mark(alloc, mark, bytes),
            _ => Ok(false),
        }
    }

    fn whole(&mut self, mark: &str, bytes: &[u8]) -> Result<bool, AllocError> {
        if mark == "<|" {
            self.body.extend_from_slice(bytes)?;
        } else {
            self.head.extend_from_slice(bytes)?;
            self.head.extend_from_slice(b"\r\n")?;
        }
        Ok(true)
    }

    fn mark(&mut self, alloc: Global, mark: &str, bytes: &[u8]) -> Result<bool, AllocError> {
        let bytes = bytes.to_vec(alloc)?;
        self.marks.push(match mark {
            "~|" => Mark::InBody(bytes),
            "~!" => Mark::NoHeader(bytes),
            _ => Mark::Line(bytes),
        })?;
        Ok(true)
    }
}
