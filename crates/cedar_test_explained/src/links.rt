//! Links of templates: the fact `links policy0 alice User::"alice" -; policy1 all - Photo::"p"` has the template, the id
//! of the new policy, and the entities of `?principal` and `?resource`; `-` where there is none.
use crate::answer::Unanswered;
use crate::given::{read_id, read_uid};
use cedar_names::{SlotEnv, SlotId};
use cedar_policy_json_writer::TemplateLink;
use std::alloc::Global;

const NO_LINK: Unanswered = Unanswered::Unreadable("a link has a template, an id and two entities");

/// The links of the fact.
pub fn read_links(alloc: Global, fact: &str) -> Result<Vec<TemplateLink>, Unanswered> {
    let mut links: Vec<TemplateLink> = Vec::new(alloc);
    if fact != "none" {
        for link in fact.split("; ") {
            links.push(read_link(alloc, link)?)?;
        }
    }
    Ok(links)
}

/// The link of these words.
pub fn read_link(alloc: Global, link: &str) -> Result<TemplateLink, Unanswered> {
    let (template, behind) = link.split_once(' ').ok_or(NO_LINK)?;
    let (new, entities) = behind.split_once(' ').ok_or(NO_LINK)?;
    let (principal, resource) = entities.split_once(' ').ok_or(NO_LINK)?;
    let values = read_slots(alloc, principal, resource)?;
    let template_id = read_id(alloc, template)?;
    Ok(TemplateLink {
        template_id,
        new_id: read_id(alloc, new)?,
        values,
    })
}

fn read_slots(alloc: Global, principal: &str, resource: &str) -> Result<SlotEnv, Unanswered> {
    let mut slots = SlotEnv::new(alloc);
    add_slot(alloc, &mut slots, SlotId::Principal, principal)?;
    add_slot(alloc, &mut slots, SlotId::Resource, resource)?;
    Ok(slots)
}

fn add_slot(
    alloc: Global,
    slots: &mut SlotEnv,
    slot: SlotId,
    entity: &str,
) -> Result<(), Unanswered> {
    if entity != "-" {
        let uid = read_uid(alloc, entity)?;
        slots.insert(slot, uid)?;
    }
    Ok(())
}
