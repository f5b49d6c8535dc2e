//! A test of a server in memory: a client opens two documents, asks how many are open, and ends the session. Standard
//! output shows each message that passed. If a step fails, the program says which, and ends with status 1.
#![tactic(auto)]

use anyhow::{Result, bail};
use lsp_message::{Notification, Request, ResponseError};
use lsp_session::{Handler, HandlerApplication};
use lsp_testing::TestClient;
use serde_json::{Value, json};
use std::alloc::{AllocError, Global};

/// The server that is tested. It knows how many documents its client has opened.
#[derive(Drop)]
struct Documents {
    alloc: Global,
    open_count: u32,
}

impl Handler for Documents {
    fn answer(&mut self, request: &Request) -> Result<Result<Value, ResponseError>, AllocError> {
        if request.method.as_str() == "demo/openDocuments" {
            return Ok(Ok(Value::from(self.open_count)));
        }
        Ok(Err(ResponseError::method_not_found(self.alloc)?))
    }

    fn note(&mut self, notification: &Notification) -> Result<(), AllocError> {
        if notification.method.as_str() == "textDocument/didOpen" {
            self.open_count = self.open_count.saturating_add(1);
        }
        Ok(())
    }
}

type Client = TestClient<HandlerApplication<Documents>>;

/// Opens two documents, and looks at what the server says of them.
fn test(alloc: Global, client: &mut Client) -> Result<()> {
    let _result = client.initialize(json!(in alloc; {})?)?;
    client.notify("textDocument/didOpen", Value::Null)?;
    client.notify("textDocument/didOpen", Value::Null)?;
    match client.request("demo/openDocuments", Value::Null)? {
        Ok(count) if count == Value::from(2) => {}
        Ok(count) => bail!("{count} documents are open, and not 2"),
        Err(error) => bail!("the request brought the error {}", error.code),
    }
    match client.request("demo/unknown", Value::Null)? {
        Ok(_) => bail!("an unknown request brought a result"),
        Err(_) => {}
    }
    Ok(client.shutdown()?)
}

fn main(rt: HostRuntime) -> Result<()> {
    let alloc = rt.alloc();
    let documents = Documents {
        alloc,
        open_count: 0,
    };
    let application = HandlerApplication::new(alloc, json!(in alloc; {})?, documents);
    let mut client = TestClient::new(alloc, application);
    let tested = test(alloc, &mut client);
    print!(rt; "{}", client.snapshot())?;
    tested
}
