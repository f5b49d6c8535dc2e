// One row after another.
use crate::documents::Documents;
use crate::said::Said;
use crate::{
    by_method, call_texts, dispatching, json_texts, json_writing, links, lists, messages, plain,
    queues, small_calls, tables, types, uris,
};
use std::alloc::Global;

/// What the next row is about.
#[derive(Drop)]
pub struct Rows {
    alloc: Global,
    documents: Documents,
}

impl Rows {
    /// No documents.
    pub fn new(alloc: Global) -> Rows {
        Rows {
            alloc,
            documents: Documents::new(alloc),
        }
    }

    /// Returns the lines below this row.
    pub fn run(&mut self, line: &str) -> Said {
        let mut lines = Said::new(self.alloc);
        let mut said = Said::new(self.alloc);
        self.run_line(&mut lines, &mut said, line);
        lines.is_short = lines.is_short || said.is_short;
        lines.is_unknown = said.is_unknown;
        drop(said);
        lines
    }

    fn run_line(&mut self, lines: &mut Said, said: &mut Said, line: &str) {
        let (word, rest) = line.split_once(" ").unwrap_or(("#", ""));
        match word {
            "#" => {}
            _ => self.run_whole(lines, said, word, rest),
        }
    }

    /// Runs a row that is run again as a whole if an allocation failed.
    fn run_whole(&mut self, lines: &mut Said, said: &mut Said, word: &str, rest: &str) {
        self.answer(said, word, rest);
        if said.is_short {
            add_line(lines, "refused: ", word);
            said.clear();
            self.answer(said, word, rest);
        }
        add_line(lines, "", said.text.as_str());
    }

    fn answer(&mut self, said: &mut Said, word: &str, rest: &str) {
        match word {
            "document" => self.documents.answer(said, rest),
            "id" => messages::id_text(said, rest),
            "values" => messages::values(said, rest),
            "error" => messages::error(said, rest),
            "result" => messages::result(said, rest),
            "extract" => messages::extracted(said, rest),
            "queues" => queues::answers(said, rest),
            "dispatch" => dispatching::dispatched(said, rest),
            "replay" => dispatching::replayed(said, rest),
            "link" => links::answers(said, rest),
            "typed" => types::answer(said, rest),
            "method" => messages::acts(said, rest),
            "configuration" => by_method::configuration(said, rest),
            "announce" => tables::announced(said, rest),
            "answer" => tables::answered(said, rest),
            "plain" => plain::answers(said, rest),
            "uri" => uris::uri(said, rest),
            "path" => uris::path(said, rest),
            "names" => uris::names(said, rest),
            "folders" => uris::folders(said, rest),
            "tokens" => uris::tokens(said, rest),
            "action" | "change" | "report" | "trace" | "register" => small_calls::made(
                said, word, rest,
            ),
            "json" => json_texts::whole(said, rest),
            "quoted" => json_texts::quoted(said, rest),
            "member" => json_texts::member(said, rest),
            "text" | "deep" => json_writing::made(said, word, rest),
            "content" => call_texts::content(said, rest),
            "octets" => call_texts::octets(said, rest),
            "offset" => uris::offset(said, rest),
            "lines" => uris::lines(said, rest),
            "calls" => lists::called(said, rest),
            "writes" => lists::written(said, rest),
            _ => lists::session(said, word, rest),
        }
    }
}

fn add_line(lines: &mut Said, before: &str, text: &str) {
    lines.push("  ");
    lines.push(before);
    lines.push(text);
    lines.push("\n");
}
