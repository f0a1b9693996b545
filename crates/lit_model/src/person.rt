//! Persons, and their roles in a work.

ghost use Rattle.std.specs.Prelude.{◌≡◌, not, ◌||◌, ◌++◌, option_copied, string_bytes, chars, map, IfOk};
ghost use Rattle.std.specs.List.{list_any, list_all};
ghost use Rattle.unicode.specs.Binary.{is_alphabetic};
ghost use Rattle.lit_model.specs.Name as spec;
ghost use Rattle.lit_model.specs.Person.{person_view, person_of, institution_of, role_of, role_group};
ghost use Rattle.unicode.specs.Script.{script};

use crate::text::copy_text;
use csl_common::Memory;
use std::alloc::Global;
use unicode::properties::{GeneralCategory, Script, is_alphabetic};

/// A person or an institution.
#[derive(PartialEq, Eq, Hash, Drop)]
pub struct Person {
    /// The family name, or the whole name of an institution.
    pub name: String,
    /// The given name.
    pub given_name: Option<String>,
    /// The text before the family name, such as `von`.
    pub prefix: Option<String>,
    /// The text after the name, such as `Jr.`.
    pub suffix: Option<String>,
    /// Another name.
    pub alias: Option<String>,
    /// Whether a comma precedes the suffix.
    pub comma_suffix: bool,
}

/// The role of a person in a work.
#[derive(PartialEq, Eq, Drop)]
pub enum PersonRole {
    Translator,
    Afterword,
    Foreword,
    Introduction,
    Annotator,
    Commentator,
    Holder,
    Compiler,
    Founder,
    Collaborator,
    Organizer,
    CastMember,
    Composer,
    Producer,
    ExecutiveProducer,
    Writer,
    Cinematography,
    Director,
    Illustrator,
    Narrator,
    /// Any other role, by its text.
    Unknown(String),
}

/// Persons with one role.
#[derive(PartialEq, Eq, Drop)]
pub struct PersonsWithRoles {
    /// The persons, in order.
    pub names: Vec<Person>,
    /// Their role.
    pub role: PersonRole,
}

impl Person {
    /// A person with only a name and a given name.
    pub fn new(alloc: Global, name: &str, given_name: &str) -> Result<Person, Memory>
        ensures { IfOk result (λ person. person_view person ≡ person_of name.now given_name.now) }
    {
        let name = String::from_str(alloc, name)?;
        let given_name = String::from_str(alloc, given_name)?;
        Ok(Person {
            name,
            given_name: Some(given_name),
            prefix: None,
            suffix: None,
            alias: None,
            comma_suffix: false,
        })
    }

    /// An institution, or a person with only one name.
    pub fn institution(alloc: Global, name: &str) -> Result<Person, Memory>
        ensures { IfOk result (λ person. person_view person ≡ institution_of name.now) }
    {
        Ok(Person {
            name: String::from_str(alloc, name)?,
            given_name: None,
            prefix: None,
            suffix: None,
            alias: None,
            comma_suffix: false,
        })
    }

    /// Whether this is an institution: it has no given name, no prefix and no suffix, not even an
    /// empty one.
    pub fn is_institutional(&self) -> bool
        ensures { result ≡ spec.is_institutional (person_view self.now) }
    {
        self.given_name.is_none() && self.prefix.is_none() && self.suffix.is_none()
    }

    /// Whether the name is in a Chinese, Japanese or Korean script: the name and the given name
    /// together have a letter (Unicode Alphabetic), and each letter has the script Han, Hiragana,
    /// Katakana, Hangul or Bopomofo.
    pub fn is_cjk(&self) -> bool
        ensures { result ≡ spec.is_cjk (person_view self.now) }
    {
        match &self.given_name {
            Some(given) => is_cjk_name(self.name.as_str(), given.as_str()),
            None => is_cjk_name(self.name.as_str(), ""),
        }
    }

    /// The particle of the name, such as `van der`, if it has one. The name is cut into words at
    /// each space. The particle is the longest run of words at the front that each begin with a
    /// lowercase letter (general category Ll). The last word is never part of it.
    pub fn name_particle(&self) -> Option<&str>
        ensures { option_copied result ≡ spec.name_particle (string_bytes self.now.name) }
    {
        let name = self.name.as_str();
        let rest = self.name_without_particle();
        let front = name.len() - rest.len();
        if front == 0 {
            return None;
        }
        Some(&name[..front - 1])
    }

    /// The name after its particle and one space; the whole name if it has no particle.
    pub fn name_without_particle(&self) -> &str
        ensures { result.now ≡ spec.name_without_particle (string_bytes self.now.name) }
    {
        let mut rest = self.name.as_str();
        while let Some((word, after)) = rest.split_once(' ') {
            if !is_particle_word(word) {
                break;
            }
            rest = after;
        }
        rest
    }

    /// The name without an English article and a space at its front. The articles are `The`, `A`
    /// and `An`, with or without a capital. It is the whole name if there is no article or nothing
    /// follows it.
    pub fn name_without_article(&self) -> &str
        ensures { result.now ≡ spec.name_without_article (string_bytes self.now.name) }
    {
        let name = self.name.as_str();
        strip_any_article(&["The ", "the ", "A ", "a ", "An ", "an "], name).unwrap_or(name)
    }
}

impl Person {
    /// A copy.
    pub fn clone(&self, alloc: Global) -> Result<Person, Memory>
        ensures { IfOk result (λ p. person_view p ≡ person_view self.now) }
    {
        let name = String::from_str(alloc, self.name.as_str())?;
        let given_name = copy_text(&self.given_name, alloc)?;
        let prefix = copy_text(&self.prefix, alloc)?;
        let suffix = copy_text(&self.suffix, alloc)?;
        let alias = copy_text(&self.alias, alloc)?;
        Ok(Person {
            name,
            given_name,
            prefix,
            suffix,
            alias,
            comma_suffix: self.comma_suffix,
        })
    }
}

impl PersonRole {
    /// A copy.
    pub fn clone(&self, alloc: Global) -> Result<PersonRole, Memory>
        ensures { IfOk result (λ r. role_of r ≡ role_of self.now) }
    {
        match self {
            PersonRole::Translator => Ok(PersonRole::Translator),
            PersonRole::Afterword => Ok(PersonRole::Afterword),
            PersonRole::Foreword => Ok(PersonRole::Foreword),
            PersonRole::Introduction => Ok(PersonRole::Introduction),
            PersonRole::Annotator => Ok(PersonRole::Annotator),
            PersonRole::Commentator => Ok(PersonRole::Commentator),
            PersonRole::Holder => Ok(PersonRole::Holder),
            PersonRole::Compiler => Ok(PersonRole::Compiler),
            PersonRole::Founder => Ok(PersonRole::Founder),
            PersonRole::Collaborator => Ok(PersonRole::Collaborator),
            PersonRole::Organizer => Ok(PersonRole::Organizer),
            PersonRole::CastMember => Ok(PersonRole::CastMember),
            PersonRole::Composer => Ok(PersonRole::Composer),
            PersonRole::Producer => Ok(PersonRole::Producer),
            PersonRole::ExecutiveProducer => Ok(PersonRole::ExecutiveProducer),
            PersonRole::Writer => Ok(PersonRole::Writer),
            PersonRole::Cinematography => Ok(PersonRole::Cinematography),
            PersonRole::Director => Ok(PersonRole::Director),
            PersonRole::Illustrator => Ok(PersonRole::Illustrator),
            PersonRole::Narrator => Ok(PersonRole::Narrator),
            PersonRole::Unknown(text) => {
                let copy = String::from_str(alloc, text.as_str())?;
                Ok(PersonRole::Unknown(copy))
            }
        }
    }
}

impl PersonsWithRoles {
    /// A copy.
    pub fn clone(&self, alloc: Global) -> Result<PersonsWithRoles, Memory>
        ensures { IfOk result (λ g. role_group g ≡ role_group self.now) }
    {
        let names = copy_persons(&self.names, alloc)?;
        let role = self.role.clone(alloc)?;
        Ok(PersonsWithRoles { names, role })
    }
}

/// A copy of each person, in order.
pub(crate) fn copy_persons(persons: &[Person], alloc: Global) -> Result<Vec<Person>, Memory>
    ensures { IfOk result (λ v. map person_view v.items ≡ map person_view persons.now) }
{
    let mut copies = Vec::with_capacity(alloc, persons.len())?;
    for person in persons {
        copies.push(person.clone(alloc)?)?;
    }
    Ok(copies)
}

/// A copy of each group, in order.
pub(crate) fn copy_groups(
    groups: &[PersonsWithRoles],
    alloc: Global,
) -> Result<Vec<PersonsWithRoles>, Memory>
    ensures { IfOk result (λ v. map role_group v.items ≡ map role_group groups.now) }
{
    let mut copies = Vec::with_capacity(alloc, groups.len())?;
    for group in groups {
        copies.push(group.clone(alloc)?)?;
    }
    Ok(copies)
}

fn is_cjk_script(script: Script) -> bool
    ensures { result ≡ spec.is_cjk_script script }
{
    matches!(
        script,
        Script::Han | Script::Hiragana | Script::Katakana | Script::Hangul | Script::Bopomofo
    )
}

fn is_cjk_name(name: &str, given: &str) -> bool
    ensures { result ≡ spec.are_cjk (spec.letters name.now ++ spec.letters given.now) }
{
    if !has_letter(name) && !has_letter(given) {
        return false;
    }
    is_cjk_text(name) && is_cjk_text(given)
}

fn has_letter(text: &str) -> bool
    ensures { result ≡ list_any is_alphabetic (chars text.now) }
{
    text.chars().any(|c| is_alphabetic(c))
}

/// Whether each letter of the text is of a Chinese, Japanese or Korean script.
fn is_cjk_text(text: &str) -> bool
    ensures { result
        ≡ list_all (λ c. not (is_alphabetic c) || spec.is_cjk_script (script c)) (chars text.now) }
{
    text.chars().all(|c| !is_alphabetic(c) || is_cjk_script(Script::for_char(c)))
}

/// Whether the word begins with a lowercase letter.
fn is_particle_word(word: &str) -> bool
    ensures { result ≡ spec.is_particle_word word.now }
{
    match word.chars().next() {
        Some(first) => matches!(
            GeneralCategory::for_char(first),
            GeneralCategory::LowercaseLetter
        ),
        None => false,
    }
}

/// The text after `article`, if the text begins with it and more follows.
fn strip_article<'a>(article: &str, text: &'a str) -> Option<&'a str>
    ensures { option_copied result ≡ spec.strip_article article.now text.now }
{
    let rest = text.strip_prefix(article)?;
    if rest.is_empty() { None } else { Some(rest) }
}

/// The first result of `strip_article` over the articles, if there is one.
fn strip_any_article<'a>(articles: &[&str], text: &'a str) -> Option<&'a str>
    ensures { option_copied result
        ≡ spec.strip_any_article (map (λ a. a.now) articles.now) text.now }
{
    for article in articles {
        if let Some(rest) = strip_article(article, text) {
            return Some(rest);
        }
    }
    None
}
