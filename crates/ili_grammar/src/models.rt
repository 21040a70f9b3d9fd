// Domains, tables, topics and whole models.
ghost use Rattle.std.specs.Prelude.{◌≡◌, ◌<◌, ◌≤◌, ◌∷◌, [], length, IfOk, IfErr, IsTrue};
ghost use Rattle.ili_grammar.specs.Models.{IsDomains, IsMaybeDomains, IsTable, IsBody, IsTopics};
ghost use Rattle.ili_grammar.specs.Models.{IsModel, IsFont, IsTransfer};
ghost use Rattle.ili_grammar.specs.Slices.{word_of, mark_of};
ghost use Rattle.ili_grammar.specs.Values.{codes_of, ident_of, domain_of, domains_of, table_of};
ghost use Rattle.ili_grammar.specs.Values.{tables_of, topic_of, topics_of, model_of};
ghost use Rattle.ili_grammar.specs.Steps.{all, rest, is_plain, Refuses, Goes, past};
ghost use Rattle.ili_grammar.specs.Machine.{want, the_name, start, the_model, topics, the_topic};
ghost use Rattle.ili_grammar.specs.Machine.{body, the_table, items, maybe_domains, a_type};
ghost use Rattle.ili_grammar.specs.Machine.{maybe_explanation, maybe_font, blank_value};
ghost use Rattle.ili_grammar.specs.Tokens.{word, name as a_name, equals, semicolon, OPTIONAL, END};
ghost use Rattle.ili_grammar.specs.Tokens.{FORMAT, FREE, CODE, BLANK};
ghost use Rattle.ili_grammar.specs.Parts.{ReadsDomain, ReadsTable, ReadsTopic, ReadsHeading};
ghost use Rattle.ili_grammar.specs.Parts.{ReadsEnding, ReadsEndName, ReadsFormat};

use super::source::{DEEPEST, Source, Wanted, keep, keep_all};
use super::syntax::{
    Codes, DomainSyntax, Ident, ModelSyntax, SyntaxFault, TableSyntax, TopicSyntax,
};
use ili_lexer::{Keyword, Kind, Mark};

impl Source<'_> {
    pub fn transfer(&self, at: usize) -> Result<(ModelSyntax, usize), SyntaxFault>
        requires { at ≤ length self.now.tokens.now }
        ensures reads { IfOk result (λ p. IsTransfer 32 (model_of p.0) (rest self.now at)
            (rest self.now p.1)) }
        ensures within { IfOk result (λ p. p.1 ≤ length self.now.tokens.now) }
        ensures stops { IfErr result (λ fault. Refuses (all self.now) (rest self.now at)
            (start 32 ∷ []) fault) }
    {
        let next = self.expect_keyword(at, Keyword::Transfer)?;
        let (transfer, next) = self.ident(next)?;
        let next = self.expect_mark(next, Mark::Semicolon)?;
        let (outer, next) = self.optional_domains(next)?;
        let (model, domains, topics, next) = self.model(next)?;
        let (codes, next) = self.format(next)?;
        let syntax = ModelSyntax {
            transfer,
            outer,
            model,
            domains,
            topics,
            codes,
        };
        Ok((syntax, next))
    }

    // From FORMAT to the end of the model.
    fn format(&self, at: usize) -> Result<(Codes, usize), SyntaxFault>
        ensures reads { IfOk result (λ p. ReadsFormat (codes_of p.0) (rest self.now at)
            (rest self.now p.1)) }
        ensures within { IfOk result (λ p. p.1 ≤ length self.now.tokens.now) }
        ensures stops { IfErr result (λ fault. Refuses (all self.now) (rest self.now at)
            (want (word FORMAT) ∷ want (word FREE) ∷ want semicolon ∷ want (word CODE)
            ∷ maybe_font ∷ want (word BLANK) ∷ want equals ∷ blank_value ∷ []) fault) }
    {
        let next = self.expect_keyword(at, Keyword::Format)?;
        let next = self.expect_free(next)?;
        let next = self.expect_mark(next, Mark::Semicolon)?;
        let next = self.expect_keyword(next, Keyword::Code)?;
        let next = self.font(next)?;
        let (codes, next) = self.codes(next)?;
        Ok((codes, next))
    }

    fn model(
        &self,
        at: usize,
    ) -> Result<(Ident, Vec<DomainSyntax>, Vec<TopicSyntax>, usize), SyntaxFault>
        requires { at ≤ length self.now.tokens.now }
        ensures reads { IfOk result (λ p. IsModel 32 (ident_of p.0) (domains_of p.1.items)
            (topics_of p.2.items) (rest self.now at) (rest self.now p.3)) }
        ensures within { IfOk result (λ p. p.3 ≤ length self.now.tokens.now) }
        ensures runs { IfOk result (λ p. Goes (rest self.now at) (the_model 32 ∷ [])
            (rest self.now p.3) []) }
        ensures stops { IfErr result (λ fault. Refuses (all self.now) (rest self.now at)
            (the_model 32 ∷ []) fault) }
    {
        let next = self.expect_keyword(at, Keyword::Model)?;
        let (model, next) = self.ident(next)?;
        let (domains, next) = self.optional_domains(next)?;
        let (topics, next) = self.topics(next)?;
        let next = self.ending(next, &model, Mark::Period)?;
        Ok((model, domains, topics, next))
    }

    // DOMAIN and its domains, if it stands here.
    fn optional_domains(&self, at: usize) -> Result<(Vec<DomainSyntax>, usize), SyntaxFault>
        requires { at ≤ length self.now.tokens.now }
        ensures reads { IfOk result (λ p. IsMaybeDomains 32 (domains_of p.0.items)
            (rest self.now at) (rest self.now p.1)) }
        ensures within { IfOk result (λ p. (at ≤ p.1) × (p.1 ≤ length self.now.tokens.now)) }
        ensures runs { IfOk result (λ p. Goes (rest self.now at) (maybe_domains 32 ∷ [])
            (rest self.now p.1) []) }
        ensures stops { IfErr result (λ fault. Refuses (all self.now) (rest self.now at)
            (maybe_domains 32 ∷ []) fault) }
    {
        if !self.is_keyword(at, Keyword::Domain) {
            return Ok((Vec::new(self.alloc), at));
        }
        let (domains, next) = self.domains(at + 1)?;
        Ok((domains, next))
    }

    // The domains that stand after DOMAIN.
    fn domains(&self, at: usize) -> Result<(Vec<DomainSyntax>, usize), SyntaxFault>
        requires { at ≤ length self.now.tokens.now }
        ensures reads { IfOk result (λ p. IsDomains 32 (domains_of p.0.items) (rest self.now at)
            (rest self.now p.1)) }
        ensures within { IfOk result (λ p. (at ≤ p.1) × (p.1 ≤ length self.now.tokens.now)) }
        ensures runs { IfOk result (λ p. Goes (rest self.now at) (items 32 ∷ []) (rest self.now p.1)
            []) }
        ensures stops { IfErr result (λ fault. Refuses (all self.now) (rest self.now at)
            (items 32 ∷ []) fault) }
    {
        let mut domains = Vec::new(self.alloc);
        let mut first = at;
        'domains: while self.is(first, Kind::Name) {
            let (domain, next) = self.domain(first)?;
            keep(&mut domains, domain)?;
            first = next;
        }
        Ok((domains, first))
    }

    fn domain(&self, at: usize) -> Result<(DomainSyntax, usize), SyntaxFault>
        requires { at ≤ length self.now.tokens.now }
        ensures reads { IfOk result (λ p. ReadsDomain (domain_of p.0) (rest self.now at)
            (rest self.now p.1)) }
        ensures within { IfOk result (λ p. (at < p.1) × (p.1 ≤ length self.now.tokens.now)) }
        ensures runs { IfOk result (λ p. Goes (rest self.now at)
            (want a_name ∷ want equals ∷ a_type 32 ∷ maybe_explanation ∷ want semicolon ∷ [])
            (rest self.now p.1) []) }
        ensures stops { IfErr result (λ fault. Refuses (all self.now) (rest self.now at)
            (want a_name ∷ want equals ∷ a_type 32 ∷ maybe_explanation ∷ want semicolon ∷ [])
            fault) }
    {
        let (name, next) = self.ident(at)?;
        let next = self.expect_mark(next, Mark::Equals)?;
        let (kind, next) = self.type_syntax(next, DEEPEST)?;
        let next = self.explanation(next);
        let next = self.expect_mark(next, Mark::Semicolon)?;
        Ok((DomainSyntax { name, kind }, next))
    }

    fn topics(&self, at: usize) -> Result<(Vec<TopicSyntax>, usize), SyntaxFault>
        requires { at ≤ length self.now.tokens.now }
        ensures reads { IfOk result (λ p. IsTopics 32 (topics_of p.0.items) (rest self.now at)
            (rest self.now p.1)) }
        ensures within { IfOk result (λ p. (at ≤ p.1) × (p.1 ≤ length self.now.tokens.now)) }
        ensures runs { IfOk result (λ p. Goes (rest self.now at) (topics 32 ∷ [])
            (rest self.now p.1) []) }
        ensures stops { IfErr result (λ fault. Refuses (all self.now) (rest self.now at)
            (topics 32 ∷ []) fault) }
    {
        let mut topics = Vec::new(self.alloc);
        let mut first = at;
        'topics: while self.is_keyword(first, Keyword::Topic)
            || self.is_keyword(first, Keyword::Optional)
        {
            let (topic, next) = self.topic(first)?;
            keep(&mut topics, topic)?;
            first = next;
        }
        Ok((topics, first))
    }

    fn topic(&self, at: usize) -> Result<(TopicSyntax, usize), SyntaxFault>
        requires { at ≤ length self.now.tokens.now }
        ensures reads { IfOk result (λ p. ReadsTopic (topic_of p.0) (rest self.now at)
            (rest self.now p.1)) }
        ensures within { IfOk result (λ p. (at < p.1) × (p.1 ≤ length self.now.tokens.now)) }
        ensures runs { IfOk result (λ p. Goes (past (word OPTIONAL) (rest self.now at))
            (the_topic 32 ∷ []) (rest self.now p.1) []) }
        ensures stops { IfErr result (λ fault. Refuses (all self.now)
            (past (word OPTIONAL) (rest self.now at)) (the_topic 32 ∷ []) fault) }
    {
        let (_, next) = self.optional(at);
        let (name, next) = self.heading(next, Keyword::Topic)?;
        let (domains, tables, next) = self.body(next)?;
        let next = self.ending(next, &name, Mark::Period)?;
        let topic = TopicSyntax {
            name,
            domains,
            tables,
        };
        Ok((topic, next))
    }

    // The domains and the tables of a topic.
    fn body(&self, at: usize) -> Result<(Vec<DomainSyntax>, Vec<TableSyntax>, usize), SyntaxFault>
        requires { at ≤ length self.now.tokens.now }
        ensures reads { IfOk result (λ p. IsBody 32 (domains_of p.0.items) (tables_of p.1.items)
            (rest self.now at) (rest self.now p.2)) }
        ensures within { IfOk result (λ p. (at ≤ p.2) × (p.2 ≤ length self.now.tokens.now)) }
        ensures runs { IfOk result (λ p. Goes (rest self.now at) (body 32 ∷ []) (rest self.now p.2)
            []) }
        ensures stops { IfErr result (λ fault. Refuses (all self.now) (rest self.now at)
            (body 32 ∷ []) fault) }
    {
        let mut domains = Vec::new(self.alloc);
        let mut tables = Vec::new(self.alloc);
        let mut first = at;
        'body: loop {
            if self.is_keyword(first, Keyword::Domain) {
                let (more, next) = self.domains(first + 1)?;
                keep_all(&mut domains, more)?;
                first = next;
                continue;
            }
            if !self.is_keyword(first, Keyword::Table)
                && !self.is_keyword(first, Keyword::Optional)
            {
                return Ok((domains, tables, first));
            }
            let (table, next) = self.table(first)?;
            keep(&mut tables, table)?;
            first = next;
        }
    }

    fn table(&self, at: usize) -> Result<(TableSyntax, usize), SyntaxFault>
        requires { at ≤ length self.now.tokens.now }
        ensures reads { IfOk result (λ p. ReadsTable (table_of p.0) (rest self.now at)
            (rest self.now p.1)) }
        ensures within { IfOk result (λ p. (at < p.1) × (p.1 ≤ length self.now.tokens.now)) }
        ensures runs { IfOk result (λ p. Goes (past (word OPTIONAL) (rest self.now at))
            (the_table 32 ∷ []) (rest self.now p.1) []) }
        ensures stops { IfErr result (λ fault. Refuses (all self.now)
            (past (word OPTIONAL) (rest self.now at)) (the_table 32 ∷ []) fault) }
    {
        let (optional, next) = self.optional(at);
        let (name, next) = self.heading(next, Keyword::Table)?;
        let (attributes, next) = self.attributes(next, DEEPEST)?;
        let (idents, next) = self.idents(next)?;
        let next = self.ending(next, &name, Mark::Semicolon)?;
        let table = TableSyntax {
            name,
            optional,
            attributes,
            idents,
        };
        Ok((table, next))
    }

    // A keyword, a name and `=`.
    fn heading(&self, at: usize, keyword: Keyword) -> Result<(Ident, usize), SyntaxFault>
        requires plain { IsTrue (is_plain (word (word_of keyword))) }
        ensures reads { IfOk result (λ p. ReadsHeading (word_of keyword) (ident_of p.0)
            (rest self.now at) (rest self.now p.1)) }
        ensures within { IfOk result (λ p. (at < p.1) × (p.1 ≤ length self.now.tokens.now)) }
        ensures runs { IfOk result (λ p. Goes (rest self.now at)
            (want (word (word_of keyword)) ∷ want a_name ∷ want equals ∷ []) (rest self.now p.1)
            []) }
        ensures stops { IfErr result (λ fault. Refuses (all self.now) (rest self.now at)
            (want (word (word_of keyword)) ∷ want a_name ∷ want equals ∷ []) fault) }
    {
        let next = self.expect_keyword(at, keyword)?;
        let (name, next) = self.ident(next)?;
        let next = self.expect_mark(next, Mark::Equals)?;
        Ok((name, next))
    }

    // END, the opened name, and a mark.
    fn ending(&self, at: usize, name: &Ident, mark: Mark) -> Result<usize, SyntaxFault>
        requires plain { IsTrue (is_plain (mark_of mark)) }
        ensures reads { IfOk result (λ next. ReadsEnding (mark_of mark) (ident_of name.now)
            (rest self.now at) (rest self.now next)) }
        ensures within { IfOk result (λ next. (at < next) × (next ≤ length self.now.tokens.now)) }
        ensures runs { IfOk result (λ next. Goes (rest self.now at)
            (want (word END) ∷ the_name (ident_of name.now).text ∷ want (mark_of mark) ∷ [])
            (rest self.now next) []) }
        ensures stops { IfErr result (λ fault. Refuses (all self.now) (rest self.now at)
            (want (word END) ∷ the_name (ident_of name.now).text ∷ want (mark_of mark) ∷ [])
            fault) }
    {
        let next = self.expect_keyword(at, Keyword::End)?;
        let next = self.end_name(next, name)?;
        let next = self.expect_mark(next, mark)?;
        Ok(next)
    }

    // The opened name.
    fn end_name(&self, at: usize, name: &Ident) -> Result<usize, SyntaxFault>
        ensures reads { IfOk result (λ next. ReadsEndName (ident_of name.now) (rest self.now at)
            (rest self.now next)) }
        ensures within { IfOk result (λ next. (at < next) × (next ≤ length self.now.tokens.now)) }
        ensures runs { IfOk result (λ next. Goes (rest self.now at)
            (the_name (ident_of name.now).text ∷ []) (rest self.now next) []) }
        ensures stops { IfErr result (λ fault. Refuses (all self.now) (rest self.now at)
            (the_name (ident_of name.now).text ∷ []) fault) }
    {
        if self.is(at, Kind::Name) {
            let token = self.tokens[at];
            if self.bytes(&token) == name.text.bytes() {
                return Ok(at + 1);
            }
        }
        Err(self.fault(at, Wanted::EndName))
    }

    fn font(&self, at: usize) -> Result<usize, SyntaxFault>
        requires { at ≤ length self.now.tokens.now }
        ensures reads { IfOk result (λ next. IsFont (rest self.now at) (rest self.now next)) }
        ensures within { IfOk result (λ next. (at ≤ next) × (next ≤ length self.now.tokens.now)) }
        ensures runs { IfOk result (λ next. Goes (rest self.now at) (maybe_font ∷ [])
            (rest self.now next) []) }
        ensures stops { IfErr result (λ fault. Refuses (all self.now) (rest self.now at)
            (maybe_font ∷ []) fault) }
    {
        if !self.is_keyword(at, Keyword::Font) {
            return Ok(at);
        }
        let next = self.expect_mark(at + 1, Mark::Equals)?;
        let next = self.expect(next, Kind::Explanation)?;
        let next = self.expect_mark(next, Mark::Semicolon)?;
        Ok(next)
    }
}
