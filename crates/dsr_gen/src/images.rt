// The image of a trial.
ghost use Rattle.std.specs.Prelude.{◌≡◌, ◌≢◌, ◌<◌, ◌^◌, ◌++◌, length, IfOk, OnOk};
ghost use Rattle.dsr_gen.specs.Images as images;

use dsr_ir::NoMemory;
use std::alloc::Global;

// How often a link is led astray.
const ROUNDS: u8 = 8;

// Links that lead from each node to the next one, and from the last to none.
fn straight(alloc: Global, number: u16) -> Result<Vec<u32>, NoMemory>
    ensures { IfOk result (λ links. links.items ≡ images.straight_links number) }
{
    let mut links = Vec::with_capacity(alloc, usize::from(number))?;
    for slot in 1..number {
        links.push(u32::from(slot) + 1)?;
    }
    if number > 0 {
        links.push(0)?;
    }
    Ok(links)
}

// The seed of the next round.
fn next_seed(seed: u16) -> u16
    ensures { result ≡ images.next_seed seed }
{
    seed.wrapping_mul(5).wrapping_add(3)
}

// Leads links astray, one a round: a later round may change what an earlier one wrote.
fn lead_astray(links: &mut Vec<u32>, number: u16)
    requires some { number ≢ 0 }
    requires straight { links.old.items ≡ images.straight_links number }
    ensures { links.new.items ≡ images.links_after number 8 }
{
    let mut seed = number;
    for _ in 0..ROUNDS {
        seed = next_seed(seed);
        links[usize::from(seed % number)] = u32::from(seed / 8) % (u32::from(number) + 2);
    }
}

// The links of a trial.
fn links(alloc: Global, number: u16) -> Result<Vec<u32>, NoMemory>
    ensures { IfOk result (λ links. links.items ≡ images.trial_links number) }
{
    let mut links = straight(alloc, number)?;
    if number > 0 {
        lead_astray(&mut links, number);
    }
    Ok(links)
}

// Appends the head.
fn push_head(bytes: &mut Vec<u8>, number: u16) -> Result<(), NoMemory>
    ensures { OnOk result (bytes.new.items ≡ bytes.old.items ++ images.head_bytes number) }
{
    let first = u32::from(number > 0);
    bytes.extend_from_slice(&number.to_le_bytes())?;
    bytes.extend_from_slice(&number.to_le_bytes())?;
    bytes.extend_from_slice(&first.to_le_bytes())?;
    Ok(())
}

// Appends a node for each link, with its slot as its value.
fn push_nodes(bytes: &mut Vec<u8>, links: &[u32]) -> Result<(), NoMemory>
    requires few { length links.now < 2 ^ 16 }
    ensures { OnOk result (bytes.new.items ≡ bytes.old.items ++ images.nodes_bytes 0 links.now) }
{
    for (value, link) in links.iter().enumerate() {
        bytes.extend_from_slice(&(value as u32).to_le_bytes())?;
        bytes.extend_from_slice(&link.to_le_bytes())?;
    }
    Ok(())
}

/// The image of a list with so many nodes, whose links are led astray by that number alone: the
/// same number gives the same image.
pub fn trial_image(alloc: Global, number: u16) -> Result<Vec<u8>, NoMemory>
    ensures { IfOk result (λ bytes. bytes.items ≡ images.trial_bytes number) }
{
    let links = links(alloc, number)?;
    let mut bytes = Vec::with_capacity(alloc, 8 + 8 * usize::from(number))?;
    push_head(&mut bytes, number)?;
    push_nodes(&mut bytes, &links)?;
    Ok(bytes)
}
