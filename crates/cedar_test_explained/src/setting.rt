//! The facts that the rows of a table share. Each stands in a line of its own, as `principal User::"a"`, and holds of
//! the rows below it until another of its kind stands there.

/// The facts, each as it is written.
#[derive(Clone, Copy)]
pub struct Setting<'a> {
    /// What is asked of the rows.
    pub question: &'a str,
    /// The entities, in JSON.
    pub entities: &'a str,
    /// The request's principal.
    pub principal: &'a str,
    /// Its action.
    pub action: &'a str,
    /// Its resource.
    pub resource: &'a str,
    /// Its context, in JSON.
    pub context: &'a str,
    /// `skip` or `forbid`: how errors are handled.
    pub errors: &'a str,
    /// How many levels an evaluation may have.
    pub limit: &'a str,
    /// The columns of the table that SQL is asked of.
    pub columns: &'a str,
    /// The links of templates, or `none`.
    pub links: &'a str,
}

impl<'a> Setting<'a> {
    /// What holds where nothing is said.
    pub fn plain() -> Setting<'static> {
        Setting {
            question: "explained",
            entities: "[]",
            principal: "User::\"a\"",
            action: "Action::\"view\"",
            resource: "Photo::\"p\"",
            context: "{}",
            errors: "skip",
            limit: "1000",
            columns: "Photo",
            links: "none",
        }
    }

    /// With the fact of this line; none, where it states no fact.
    pub fn with(self, line: &'a str) -> Option<Setting<'a>> {
        match line.split_once(' ') {
            Some((kind, fact)) => self.with_fact(kind, fact),
            None => None,
        }
    }

    fn with_fact(self, kind: &str, fact: &'a str) -> Option<Setting<'a>> {
        match kind {
            "ask" => Some(Setting {
                question: fact,
                ..self
            }),
            "entities" => Some(Setting {
                entities: fact,
                ..self
            }),
            "principal" => Some(Setting {
                principal: fact,
                ..self
            }),
            "action" => Some(Setting {
                action: fact,
                ..self
            }),
            "resource" => Some(Setting {
                resource: fact,
                ..self
            }),
            "context" => Some(Setting {
                context: fact,
                ..self
            }),
            "errors" => Some(Setting {
                errors: fact,
                ..self
            }),
            "limit" => Some(Setting {
                limit: fact,
                ..self
            }),
            "columns" => Some(Setting {
                columns: fact,
                ..self
            }),
            "links" => Some(Setting {
                links: fact,
                ..self
            }),
            _ => None,
        }
    }
}
