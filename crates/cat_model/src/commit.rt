//! Commits.

ghost use Rattle.cat_model.specs.Formats.{meta_code, commit_code};
ghost use Rattle.cat_model.specs.FormatLaws.{meta_is, commit_is};

use crate::entry::Entry;
use crate::moment::Moment;
use cat_codes::ascending::Ascending;
use cat_codes::fault::{FieldFault, NoMemory};
use cat_codes::field::Field;
use cat_codes::reader::Reader;
use cat_codes::seq::Seq;
use cat_codes::text::Text;
use cat_codes::writer::Writer;
use cat_names::hash::Hash;
use cat_names::key::ContentKey;
use std::alloc::Global;

/// What is said of a commit.
#[derive(Clone, PartialEq, Drop)]
pub struct Meta {
    pub message: Text,
    pub authors: Seq<Text>,
    pub signed: Seq<Text>,
    pub properties: Ascending<Text, Seq<Text>>,
    pub author_time: Option<Moment>,
}

/// A commit. A change of a key is its new entry, or none for a key that is deleted.
#[derive(Clone, PartialEq, Drop)]
pub struct Commit {
    pub parent: Hash,
    pub merge_parent: Option<Hash>,
    pub generation: u64,
    pub time: Moment,
    pub meta: Meta,
    pub ops: Ascending<ContentKey, Option<Entry>>,
}

impl Field for Meta {
    ghost code = { meta_code };

    ghost lawful = { meta_is };

    #[tactic(auto, unfolding(crate::specs::Formats::meta_code))]
    fn read(from: &mut Reader<'_>, alloc: Global) -> Result<Meta, FieldFault> {
        let message = Text::read(from, alloc)?;
        let authors = Seq::read(from, alloc)?;
        let signed = Seq::read(from, alloc)?;
        let properties = Ascending::read(from, alloc)?;
        let author_time = Option::read(from, alloc)?;
        Ok(Meta {
            message,
            authors,
            signed,
            properties,
            author_time,
        })
    }

    #[tactic(auto, unfolding(crate::specs::Formats::meta_code))]
    fn write(&self, out: &mut Writer) -> Result<(), NoMemory> {
        self.message.write(out)?;
        self.authors.write(out)?;
        self.signed.write(out)?;
        self.properties.write(out)?;
        self.author_time.write(out)?;
        Ok(())
    }
}

impl Field for Commit {
    ghost code = { commit_code };

    ghost lawful = { commit_is };

    #[tactic(auto, unfolding(crate::specs::Formats::commit_code))]
    fn read(from: &mut Reader<'_>, alloc: Global) -> Result<Commit, FieldFault> {
        from.magic(b"NC1")?;
        let parent = Hash::read(from, alloc)?;
        let merge_parent = Option::read(from, alloc)?;
        let generation = from.u64()?;
        let time = Moment::read(from, alloc)?;
        let meta = Meta::read(from, alloc)?;
        let ops = Ascending::read(from, alloc)?;
        Ok(Commit {
            parent,
            merge_parent,
            generation,
            time,
            meta,
            ops,
        })
    }

    #[tactic(auto, unfolding(crate::specs::Formats::commit_code))]
    fn write(&self, out: &mut Writer) -> Result<(), NoMemory> {
        out.raw(b"NC1")?;
        self.parent.write(out)?;
        self.merge_parent.write(out)?;
        out.u64(self.generation)?;
        self.time.write(out)?;
        self.meta.write(out)?;
        self.ops.write(out)?;
        Ok(())
    }
}
