use crate::{Stop, input};
use hq_base::{Bytes, Json, Txt};
use std::alloc::Global;

/// A case of a file. A member that the case lacks is that of the file's head, which so holds what its cases share.
#[derive(Clone, Copy)]
pub struct Case<'a> {
    file: &'a Json,
    json: &'a Json,
}

impl<'a> Case<'a> {
    /// The case that this value of a file writes.
    pub fn new(file: &'a Json, json: &'a Json) -> Case<'a> {
        Case { file, json }
    }

    /// A member, if it is there.
    pub fn find(&self, member: &str) -> Option<&'a Json> {
        match self.json.member(member) {
            Some(json) => Some(json),
            None => self.file.member(member),
        }
    }

    /// A member.
    pub fn get(&self, member: &str) -> Result<&'a Json, Stop> {
        match self.find(member) {
            Some(json) => Ok(json),
            None => Err(Stop::Shape),
        }
    }

    /// The bytes that a member writes.
    pub fn bytes(&self, alloc: Global, member: &str) -> Result<Bytes, Stop> {
        input::bytes(alloc, self.get(member)?)
    }

    /// The text that a member writes.
    pub fn text(&self, alloc: Global, member: &str) -> Result<Txt, Stop> {
        input::text(alloc, self.get(member)?)
    }

    /// The compact text of a member's value.
    pub fn json_text(&self, alloc: Global, member: &str) -> Result<Bytes, Stop> {
        let json = self.get(member)?;
        let mut out = Bytes::new(alloc);
        json.write_to(alloc, &mut out)?;
        Ok(out)
    }

    /// The texts that the elements of a member write.
    pub fn texts(&self, alloc: Global, member: &str) -> Result<Vec<Txt>, Stop> {
        let elements = self.list(member)?;
        let mut texts = Vec::new(alloc);
        for element in elements {
            texts.push(input::text(alloc, element)?)?;
        }
        Ok(texts)
    }

    /// The number that a member is, if it is there.
    pub fn number(&self, member: &str) -> Result<Option<u64>, Stop> {
        match self.find(member) {
            Some(Json::Int(n)) => match u64::try_from(*n) {
                Ok(n) => Ok(Some(n)),
                Err(_) => Err(Stop::Shape),
            },
            Some(Json::Null) | None => Ok(None),
            Some(_) => Err(Stop::Shape),
        }
    }

    /// The place that a member is, from 0.
    pub fn place(&self, member: &str) -> Result<usize, Stop> {
        match self.number(member)? {
            Some(n) => Ok(n as usize),
            None => Err(Stop::Shape),
        }
    }

    /// The elements of a member.
    pub fn list(&self, member: &str) -> Result<&'a [Json], Stop> {
        match self.get(member)? {
            Json::Arr(elements) => Ok(elements),
            _ => Err(Stop::Shape),
        }
    }
}
