//! Simplified Chinese, in the words of CSL's own locale `zh-CN` (CSL 1.0.2, Locale; Appendix II:
//! Terms).
//! Definitions: specs/Contents.antt, specs/Languages.antt, specs/Words.antt.

ghost use Rattle.std.specs.Prelude.{◌≡◌, map};
ghost use Rattle.csl_languages.specs.Contents.{contents_of_tables, term_of_word};
ghost use Rattle.csl_languages.specs.Languages.{simplified_chinese_contents};
ghost use Rattle.csl_languages.specs.Words.{terms_of_words, simplified_chinese_words};

use crate::words::{DatePartRow, GenderedTermRow, OrdinalRow, Tables, TermRow, WordRow};
use csl_elements::DateAnyForm::{Numeric, NumericLeadingZeros};
use csl_elements::Term::{Locator, Name, Number, Other, Page};
use csl_elements::TermForm::{Long, Short, Symbol, Verb, VerbShort};
use csl_elements::{
    DatePartName, Locator as Place, NameVariable as Role, NumberVariable, OrdinalSlot,
    OtherTerm as Word, PageVariable, Season,
};

/// The words that most styles print.
pub(crate) static WORDS: [WordRow; 30] = words! {
    Word::And => Long "和";
    Word::EtAl => Long "等";
    Word::OpenQuote => Long "《";
    Word::CloseQuote => Long "》";
    Word::OpenInnerQuote => Long "〈";
    Word::CloseInnerQuote => Long "〉";
    Word::Month(0) => Long "一月", Short "1月";
    Word::Month(1) => Long "二月", Short "2月";
    Word::Month(2) => Long "三月", Short "3月";
    Word::Month(3) => Long "四月", Short "4月";
    Word::Month(4) => Long "五月", Short "5月";
    Word::Month(5) => Long "六月", Short "6月";
    Word::Month(6) => Long "七月", Short "7月";
    Word::Month(7) => Long "八月", Short "8月";
    Word::Month(8) => Long "九月", Short "9月";
    Word::Month(9) => Long "十月", Short "10月";
    Word::Month(10) => Long "十一月", Short "11月";
    Word::Month(11) => Long "十二月", Short "12月";
};

/// The other terms without a gender.
pub(crate) static TERMS: [TermRow; 175] = terms! {
    // Eras, seasons, and words in sentences.
    Other(Word::Ad) => Long "公元";
    Other(Word::Bc) => Long "公元前";
    Other(Word::PageRangeDelimiter) => Long "–";
    Other(Word::Season(Season::Spring)) => Long "春";
    Other(Word::Season(Season::Summer)) => Long "夏";
    Other(Word::Season(Season::Autumn)) => Long "秋";
    Other(Word::Season(Season::Winter)) => Long "冬";
    Other(Word::Accessed) => Long "见于";
    Other(Word::AndOthers) => Long "及其他";
    Other(Word::Anonymous) => Long "作者不详", Short "无名氏";
    Other(Word::At) => Long "于";
    Other(Word::AvailableAt) => Long "载于";
    Other(Word::By) => Long "著";
    Other(Word::Circa) => Long "介于", Short "约";
    Other(Word::Cited) => Long "见引于";
    Other(Word::Forthcoming) => Long "即将出版";
    Other(Word::From) => Long "从";
    Other(Word::Ibid) => Long "同上";
    Other(Word::In) => Long "收入";
    Other(Word::InPress) => Long "送印中";
    Other(Word::Internet) => Long "网际网络";
    Other(Word::Interview) => Long "访谈", Short "interv.";
    Other(Word::Letter) => Long "信函";
    Other(Word::NoDate) => Long "日期不详", Short "不详";
    Other(Word::Online) => Long "在线";
    Other(Word::PresentedAt) => Long "发表于";
    Other(Word::Reference) => Long "参考", Short "参";
    Other(Word::Retrieved) => Long "取读于";
    Other(Word::Scale) => Long "比例";
    Other(Word::Version) => Long "版";
    // The roles of persons.
    Name(Role::Chair) => Long "chair" / "chairs", Verb "chaired by";
    Name(Role::Compiler) => Long "compiler" / "compilers", Short "comp." / "comps.",
        Verb "compiled by", VerbShort "comp. by";
    Name(Role::ContainerAuthor) => Verb "著";
    Name(Role::Contributor) => Long "contributor" / "contributors", Short "contrib." / "contribs.",
        Verb "with", VerbShort "w.";
    Name(Role::Curator) => Long "curator" / "curators", Short "cur." / "curs.", Verb "curated by",
        VerbShort "cur. by";
    Name(Role::Director) => Long "导演", Short "导演", Verb "指导", VerbShort "导";
    Name(Role::Editor) => Long "编辑", Short "编", Verb "编辑", VerbShort "编";
    Name(Role::EditorialDirector) => Long "主编", Short "主编", Verb "主编", VerbShort "主编";
    Name(Role::EditorTranslator) => Long "编译", Short "编译", Verb "编译", VerbShort "编译";
    Name(Role::ExecutiveProducer) => Long "executive producer" / "executive producers",
        Short "exec. prod." / "exec. prods.", Verb "executive produced by",
        VerbShort "exec. prod. by";
    Name(Role::Guest) => Long "guest" / "guests", Verb "with guest", VerbShort "w. guest";
    Name(Role::Host) => Long "host" / "hosts", Verb "hosted by", VerbShort "hosted by";
    Name(Role::Illustrator) => Long "绘图", Short "绘", Verb "绘图", VerbShort "绘";
    Name(Role::Interviewer) => Verb "采访";
    Name(Role::Narrator) => Long "narrator" / "narrators", Short "narr." / "narrs.",
        Verb "narrated by", VerbShort "narr. by";
    Name(Role::Organizer) => Long "organizer" / "organizers", Short "org." / "orgs.",
        Verb "organized by", VerbShort "org. by";
    Name(Role::Performer) => Long "performer" / "performers", Short "perf." / "perfs.",
        Verb "performed by", VerbShort "perf. by";
    Name(Role::Producer) => Long "producer" / "producers", Short "prod." / "prods.",
        Verb "produced by", VerbShort "prod. by";
    Name(Role::Recipient) => Verb "受函";
    Name(Role::ReviewedAuthor) => Verb "校订", VerbShort "校";
    Name(Role::ScriptWriter) => Long "writer" / "writers", Short "writ." / "writs.",
        Verb "written by", VerbShort "writ. by";
    Name(Role::SeriesCreator) => Long "series creator" / "series creators", Short "cre." / "cres.",
        Verb "created by", VerbShort "cre. by";
    Name(Role::Translator) => Long "翻译", Short "译", Verb "翻译", VerbShort "译";
    // Numbers and pages.
    Number(NumberVariable::Edition) => Long "版本", Short "本";
    Number(NumberVariable::Issue) => Long "期", Short "期";
    Number(NumberVariable::NumberOfPages) => Long " 总页数", Short "共";
    Number(NumberVariable::Section) => Long "节", Short "节", Symbol "§" / "§§";
    Number(NumberVariable::Version) => Long "版";
    Number(NumberVariable::Volume) => Long "卷", Short "卷";
    Page(PageVariable::Page) => Long "页", Short "页";
    // Locators.
    Locator(Place::Act) => Long "act" / "acts";
    Locator(Place::Appendix) => Long "appendix" / "appendices", Short "app." / "apps.";
    Locator(Place::Book) => Long "册", Short "册";
    Locator(Place::Canon) => Long "canon" / "canons";
    Locator(Place::Chapter) => Long "章", Short "章";
    Locator(Place::Column) => Long "栏", Short "栏";
    Locator(Place::Equation) => Long "equation" / "equations", Short "eq." / "eqs.";
    Locator(Place::Figure) => Long "图表", Short "图";
    Locator(Place::Folio) => Long "版", Short "版";
    Locator(Place::Issue) => Long "期", Short "期";
    Locator(Place::Line) => Long "行", Short "行";
    Locator(Place::Note) => Long "注脚", Short "注";
    Locator(Place::Opus) => Long "作品", Short "op.";
    Locator(Place::Page) => Long "页", Short "页";
    Locator(Place::Paragraph) => Long "段落", Short "段", Symbol "¶" / "¶¶";
    Locator(Place::Part) => Long "部分", Short "部";
    Locator(Place::Rule) => Long "rule" / "rules", Short "r." / "rr.";
    Locator(Place::Scene) => Long "scene" / "scenes", Short "sc." / "scs.";
    Locator(Place::Section) => Long "节", Short "节", Symbol "§" / "§§";
    Locator(Place::SubVerbo) => Long "另见", Short "另见";
    Locator(Place::Table) => Long "table" / "tables", Short "tbl." / "tbls.";
    Locator(Place::Timestamp) => Long "", Short "";
    Locator(Place::Verse) => Long "篇", Short "篇";
    Locator(Place::Version) => Long "版";
    Locator(Place::Volume) => Long "卷", Short "卷";
};

/// The other terms with a gender.
pub(crate) static GENDERED_TERMS: [GenderedTermRow; 0] = [];

/// The ordinals.
pub(crate) static ORDINALS: [OrdinalRow; 11] = [
    (OrdinalSlot::Default, None, None, ""),
    (OrdinalSlot::Long(1), None, None, "一"),
    (OrdinalSlot::Long(2), None, None, "二"),
    (OrdinalSlot::Long(3), None, None, "三"),
    (OrdinalSlot::Long(4), None, None, "四"),
    (OrdinalSlot::Long(5), None, None, "五"),
    (OrdinalSlot::Long(6), None, None, "六"),
    (OrdinalSlot::Long(7), None, None, "七"),
    (OrdinalSlot::Long(8), None, None, "八"),
    (OrdinalSlot::Long(9), None, None, "九"),
    (OrdinalSlot::Long(10), None, None, "十"),
];

/// The date format in numbers.
pub(crate) static NUMERIC_DATE: [DatePartRow; 3] = [
    (DatePartName::Year, None, None, None),
    (
        DatePartName::Month,
        Some(NumericLeadingZeros),
        Some("/"),
        None,
    ),
    (
        DatePartName::Day,
        Some(NumericLeadingZeros),
        Some("/"),
        None,
    ),
];

/// The date format in words.
pub(crate) static TEXT_DATE: [DatePartRow; 3] = [
    (DatePartName::Year, None, None, Some("年")),
    (DatePartName::Month, Some(Numeric), None, Some("月")),
    (DatePartName::Day, None, None, Some("日")),
];

/// What the locale of Simplified Chinese holds.
pub(crate) fn simplified_chinese_tables() -> Tables
    ensures rows { contents_of_tables result ≡ simplified_chinese_contents }
    ensures words { map term_of_word result.words.now ≡ terms_of_words simplified_chinese_words }
{
    Tables {
        words: &WORDS,
        terms: &TERMS,
        gendered_terms: &GENDERED_TERMS,
        ordinals: &ORDINALS,
        numeric_date: &NUMERIC_DATE,
        text_date: &TEXT_DATE,
        punctuation_in_quote: false,
        limit_day_ordinals_to_day_1: false,
    }
}
