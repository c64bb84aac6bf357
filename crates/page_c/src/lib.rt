// What a host in C links of the crate page: its functions by number, exported under their names with the same contracts.
#![tactic(auto)]

ghost use Rattle.page.specs.Entries.{written, WritesPage, ReadsPage};

// Writes the page, and gives the written length.
#[unsafe(no_mangle)]
pub extern "C" fn cg_page(image: &[u8], out: &mut [u8]) -> i64
    ensures { WritesPage written image.now out.old (record { answer = result; output = out.new }) }
{
    page::write::cg_page(image, out)
}

// Writes the lines of a page's nodes, and gives the written length.
#[unsafe(no_mangle)]
pub extern "C" fn cg_page_nodes(page: &[u8], out: &mut [u8]) -> i64
    ensures { ReadsPage written page.now out.old (record { answer = result; output = out.new }) }
{
    page::read::cg_page_nodes(page, out)
}
