//! The whole picture.

use crate::canvas::Canvas;
use crate::labels::labels_of;
use crate::layout::Layout;
use crate::legend::{Legend, trees_of};
use crate::paint::{PLAIN, Sheet, push_classes, push_heads};
use crate::shape::push_shape;
use run_story::Story;
use std::alloc::{AllocError, Global};

const HEAD: &str =
    "<svg xmlns='http://www.w3.org/2000/svg' viewBox='0 0 $0 $1' width='$0' height='$1'>
<style>
";

const STYLE: &str =
    "text{font:12px Inter,'Segoe UI','Helvetica Neue',Helvetica,Arial,'DejaVu Sans',sans-serif}
.sheet,.box{fill:#fff}
.l{text-anchor:end}
.n{fill:#a3adb8;font-size:10px}
.g{fill:#475569}
.name{text-anchor:middle;font-size:13px;font-weight:600;fill:#334155}
.site{fill:#eef2f6;stroke:#cbd5e1}
.up{stroke-width:2.5;stroke:#cfd8e3}
.knows{stroke-width:6;stroke-linecap:round;opacity:.55}
.gap{stroke-width:8;stroke:#fff}
.down{stroke-width:2.5;stroke:#cfd8e3;stroke-dasharray:1 7;stroke-linecap:round}
.failed{stroke-width:2;stroke:#b4483c;stroke-dasharray:5 4;opacity:.6}
path.a{fill:none;stroke-width:1.4;opacity:.85}
path.b{stroke-dasharray:5 3;opacity:.7}
path.again{stroke-dasharray:1.5 3}
.x{fill:none;stroke-width:1.8;stroke-linecap:round}
.m{stroke:#fff;stroke-width:1.5}
.o{fill:#fff;stroke:#64748b;stroke-width:2}
.c{fill:none;stroke:#fff;stroke-width:2;stroke-linecap:round;stroke-linejoin:round}
@media (prefers-color-scheme:dark){
.sheet,.box,.o{fill:#12171e}
.gap,.m,.c{stroke:#12171e}
.n{fill:#64748b}
.g{fill:#a3b1c2}
.name{fill:#dbe4ee}
.site{fill:#1e2630;stroke:#3d4a5c}
.up,.down{stroke:#3d4a5c}
.failed{stroke:#ef7d6f}
";

const DEFINITIONS: &str = "}\n</style>\n<defs>\n";

const SHEET: &str = "</defs>\n<rect class='sheet' width='100%' height='100%'/>\n";

/// The picture of a run, an SVG document. It fails only if memory runs out.
pub fn picture_of(alloc: Global, story: &Story) -> Result<String, AllocError> {
    let labels = labels_of(alloc, story)?;
    let layout = Layout::of(alloc, story, labels.as_slice())?;
    let trees = trees_of(alloc, story)?;
    let mut text = String::new(alloc);
    let width = layout.width(story.members.count());
    let legend = Legend::new(width, layout.bottom.saturating_add(92));
    push_opening(
        &mut text,
        width,
        legend.bottom(trees.len()),
        trees.as_slice(),
    )?;
    let canvas = Canvas {
        alloc,
        story,
        layout: &layout,
    };
    push_body(&mut text, &canvas, labels.as_slice())?;
    legend.push(&mut text, trees.as_slice())?;
    text.push_str("</svg>\n")?;
    Ok(text)
}

/// The row of each event in the picture, 0 where it isn't drawn. It fails only if memory runs out.
pub fn rows_of(alloc: Global, story: &Story) -> Result<Vec<usize>, AllocError> {
    let labels = labels_of(alloc, story)?;
    let layout = Layout::of(alloc, story, labels.as_slice())?;
    Ok(layout.into_rows())
}

fn push_opening(
    text: &mut String,
    width: usize,
    height: usize,
    trees: &[u32],
) -> Result<(), AllocError> {
    push_shape(text, HEAD, PLAIN, &[width, height])?;
    push_classes(text, trees, Sheet::Light)?;
    text.push_str(STYLE)?;
    push_classes(text, trees, Sheet::Dark)?;
    text.push_str(DEFINITIONS)?;
    push_heads(text, trees)?;
    text.push_str(SHEET)
}

// What is appended later lies above.
fn push_body(text: &mut String, canvas: &Canvas<'_>, labels: &[String]) -> Result<(), AllocError> {
    let bottom = canvas.layout.bottom;
    canvas.push_columns(text, bottom.saturating_add(26))?;
    canvas.push_names(text, 28)?;
    for y in canvas.layout.names() {
        canvas.push_names(text, *y)?;
    }
    canvas.push_names(text, bottom.saturating_add(30))?;
    canvas.push_repeats(text)?;
    canvas.push_arrows(text)?;
    canvas.push_marks(text)?;
    canvas.push_labels(text, labels)?;
    canvas.push_stub_words(text)
}
