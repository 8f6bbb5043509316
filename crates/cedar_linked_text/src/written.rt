//! Files of links, written.
use cedar_layers::policies::PolicyID;
use cedar_names::EntityUID;
use cedar_template_links::Link;
use json::Writer;
use std::alloc::{AllocError, Global};

/// The links and behind them this one, as a file of links has them: each on a line.
pub(crate) fn list_text(alloc: Global, links: &[Link], last: &Link) -> Result<String, AllocError> {
    let mut text = String::new(alloc);
    text.push_str("[\n")?;
    'links: for link in links {
        push_link(alloc, link, &mut text)?;
        text.push_str(",\n")?;
    }
    push_link(alloc, last, &mut text)?;
    text.push_str("\n]\n")?;
    Ok(text)
}

fn push_link(alloc: Global, link: &Link, text: &mut String) -> Result<(), AllocError> {
    text.push_str("  ")?;
    let written = link_text(alloc, link)?;
    text.push_str(written.as_str())
}

fn link_text(alloc: Global, link: &Link) -> Result<String, AllocError> {
    let mut writer = Writer::new(Vec::new(alloc));
    writer.begin_object()?;
    write_id(alloc, "template_id", &link.template_id, &mut writer)?;
    write_id(alloc, "link_id", &link.new_id, &mut writer)?;
    writer.key("args")?;
    writer.begin_object()?;
    write_entity(alloc, "?principal", &link.principal, &mut writer)?;
    write_entity(alloc, "?resource", &link.resource, &mut writer)?;
    writer.end_object()?;
    writer.end_object()?;
    match String::from_utf8(writer.into_inner()) {
        Ok(text) => Ok(text),
        Err(_) => Err(AllocError),
    }
}

fn write_id(
    alloc: Global,
    key: &str,
    id: &PolicyID,
    writer: &mut Writer,
) -> Result<(), AllocError> {
    let id = id.to_string(alloc)?;
    writer.key(key)?;
    writer.string(id.as_str())
}

fn write_entity(
    alloc: Global,
    key: &str,
    uid: &Option<EntityUID>,
    writer: &mut Writer,
) -> Result<(), AllocError> {
    match uid {
        Some(uid) => {
            let uid = uid.to_string(alloc)?;
            writer.key(key)?;
            writer.string(uid.as_str())
        }
        None => Ok(()),
    }
}
