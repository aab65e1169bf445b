//! What is said of commits, as JSON.

ghost use Rattle.std.specs.Prelude.{◌≡◌, IfOk, Some};
ghost use Rattle.serde_json.specs.View.{view};
ghost use Rattle.cat_json.specs.Reading.{Gives};
ghost use Rattle.cat_json.specs.Writing.{held};
ghost use Rattle.cat_commit.specs.Metas.{given_meta_as, nothing_given, with_message, meta_as, IsKept, meta_members, meta_data, parents_of, told_meta_data, commit_meta_data, no_float_meta, no_float_commit_meta};

use crate::instant::InstantForm;
use cat_codes::ascending::Ascending;
use cat_codes::fault::NoMemory;
use cat_codes::seq::Seq;
use cat_codes::text::Text;
use cat_json::fault::JsonFault;
use cat_json::read::{ReadForm, defaulted, optional};
use cat_json::write::{Object, WriteForm};
use cat_model::commit::{Commit, Meta};
use cat_model::moment::Moment;
use cat_names::hash::Hash;
use serde_json::Value;
use std::alloc::Global;

/// What JSON says of a commit that may get its message elsewhere.
#[derive(Drop)]
pub struct GivenMeta {
    pub message: Option<Text>,
    pub authors: Seq<Text>,
    pub signed: Seq<Text>,
    pub properties: Ascending<Text, Seq<Text>>,
    pub author_time: Option<Moment>,
}

impl GivenMeta {
    /// Nothing is said.
    pub fn new(alloc: Global) -> GivenMeta
        ensures { result ≡ nothing_given }
    {
        GivenMeta {
            message: None,
            authors: Seq::new(alloc),
            signed: Seq::new(alloc),
            properties: Ascending::new(alloc),
            author_time: None,
        }
    }

    /// The meta with this message in the place of the one that was given.
    pub fn with_message(self, message: Text) -> Meta
        ensures { result ≡ with_message message self }
    {
        let GivenMeta {
            authors,
            signed,
            properties,
            author_time,
            ..
        } = self;
        Meta {
            message,
            authors,
            signed,
            properties,
            author_time,
        }
    }
}

/// The form of metas that may get their message elsewhere: an object, each of whose members may be
/// absent or null.
pub struct GivenMetaForm;

impl ReadForm for GivenMetaForm {
    type Of = GivenMeta;

    ghost reads = { given_meta_as };

    #[tactic(auto, unfolding(crate::specs::Metas::given_meta_as))]
    fn from_json(alloc: Global, value: &Value) -> Result<GivenMeta, JsonFault> {
        if value.as_object().is_none() {
            return Err(JsonFault::Bad);
        }
        let message = optional::<Text>(alloc, value, "message")?;
        let none = Seq::new(alloc);
        let authors = defaulted::<Seq<Text>>(alloc, value, "authors", none)?;
        let none = Seq::new(alloc);
        let signed = defaulted::<Seq<Text>>(alloc, value, "allSignedOffBy", none)?;
        let none = Ascending::new(alloc);
        let properties = defaulted::<Ascending<Text, Seq<Text>>>(
            alloc,
            value,
            "allProperties",
            none,
        )?;
        let author_time = optional::<InstantForm>(alloc, value, "authorTime")?;
        Ok(GivenMeta {
            message,
            authors,
            signed,
            properties,
            author_time,
        })
    }
}

/// The meta that JSON gives. `message` is required; `authors`, `allSignedOffBy`, `allProperties`
/// and `authorTime` may be absent or null.
#[tactic(auto, unfolding(crate::specs::Metas::meta_as))]
pub fn meta_from_json(alloc: Global, value: &Value) -> Result<Meta, JsonFault>
    ensures { Gives result (meta_as (view value.now)) }
{
    let mut given = GivenMetaForm::from_json(alloc, value)?;
    match given.message.take() {
        Some(message) => Ok(given.with_message(message)),
        None => Err(JsonFault::Bad),
    }
}

fn meta_object(alloc: Global, meta: &Meta) -> Result<Object, NoMemory>
    ensures { IfOk result (λ o. held o ≡ meta_members meta.now) }
{
    Object::new(alloc)
        .with::<Ascending<Text, Seq<Text>>>("allProperties", &meta.properties)?
        .with::<Seq<Text>>("allSignedOffBy", &meta.signed)?
        .with_some::<InstantForm>("authorTime", &meta.author_time)?
        .with::<Seq<Text>>("authors", &meta.authors)?
        .with::<Text>("message", &meta.message)
}

/// What holds of each meta.
fn known(meta: &Meta)
    ensures { IsKept meta.now }
{
    meta.properties.known();
    if let Some(time) = meta.author_time {
        time.micros();
    }
}

/// A meta as a JSON object, without `authorTime` where it has none. It is read as that meta again.
pub fn meta_to_json(alloc: Global, meta: &Meta) -> Result<Value, NoMemory>
    ensures data { IfOk result (λ v. view v ≡ meta_data meta.now) }
    ensures reads_again { IfOk result (λ v. meta_as (view v) ≡ Some meta.now) }
{
    known(meta);
    Ok(meta_object(alloc, meta)?.into_value())
}

/// The form of metas.
pub struct MetaForm;

impl ReadForm for MetaForm {
    type Of = Meta;

    ghost reads = { meta_as };

    fn from_json(alloc: Global, value: &Value) -> Result<Meta, JsonFault> {
        meta_from_json(alloc, value)
    }
}

impl WriteForm for MetaForm {
    type Of = Meta;

    ghost writes = { meta_data };

    ghost no_float = { no_float_meta };

    fn to_json(alloc: Global, value: &Meta) -> Result<Value, NoMemory> {
        meta_to_json(alloc, value)
    }
}

/// The parent, and the merge parent where there is one.
fn parents(alloc: Global, parent: Hash, merge_parent: Option<Hash>) -> Result<Seq<Hash>, NoMemory>
    ensures { IfOk result (λ hashes. hashes ≡ parents_of parent merge_parent) }
{
    let mut hashes = Seq::new(alloc);
    hashes.push(parent)?;
    if let Some(hash) = merge_parent {
        hashes.push(hash)?;
    }
    Ok(hashes)
}

/// What replies tell of a commit: its meta, `commitTime`, `hash` and `parentCommitHashes`.
pub fn told_meta_to_json(
    alloc: Global,
    hash: &Hash,
    parent: Hash,
    merge_parent: Option<Hash>,
    time: &Moment,
    meta: &Meta,
) -> Result<Value, NoMemory>
    ensures { IfOk result
        (λ v. view v ≡ told_meta_data hash.now parent merge_parent time.now meta.now) }
{
    Ok(
        meta_object(alloc, meta)?
            .with::<InstantForm>("commitTime", time)?
            .with::<Hash>("hash", hash)?
            .with::<Seq<Hash>>("parentCommitHashes", &parents(alloc, parent, merge_parent)?)?
            .into_value(),
    )
}

/// The same of a commit in full.
pub fn commit_meta_to_json(alloc: Global, hash: &Hash, commit: &Commit) -> Result<Value, NoMemory>
    ensures { IfOk result (λ v. view v ≡ commit_meta_data hash.now commit.now) }
{
    told_meta_to_json(
        alloc,
        hash,
        commit.parent,
        commit.merge_parent,
        &commit.time,
        &commit.meta,
    )
}

/// The form in replies of commits with their hashes.
pub struct CommitMetaForm;

impl WriteForm for CommitMetaForm {
    type Of = (Hash, Commit);

    ghost writes = { λ x. commit_meta_data x.0 x.1 };

    ghost no_float = { λ x. no_float_commit_meta x.0 x.1 };

    fn to_json(alloc: Global, value: &(Hash, Commit)) -> Result<Value, NoMemory> {
        let (hash, commit) = value;
        commit_meta_to_json(alloc, hash, commit)
    }
}
