//! The whole page.

use crate::steps::STEPS;
use crate::style::STYLE;
use crate::table::push_run;
use crate::view::VIEW;
use crate::view_cards::CARDS;
use lines::Options;
use run_picture::{picture_of, rows_of};
use run_story::Story;
use std::alloc::{AllocError, Global};

const HEAD: &str = "<!doctype html>
<html lang='en'>
<head>
<meta charset='utf-8'>
<meta name='viewport' content='width=device-width'>
<meta http-equiv='Content-Security-Policy' content='default-src &#39;none&#39;;
style-src &#39;unsafe-inline&#39;; script-src &#39;unsafe-inline&#39;'>
<title>A run, step by step</title>
<style>
";

const BODY: &str = "</style>
</head>
<body>
<header>
<div class='bar'>
<button id='first'>Start</button>
<button id='back'>Back</button>
<button id='play'>Play</button>
<button id='next'>Next</button>
<button id='last'>End</button>
<input type='range' id='at' min='0' aria-label='step'>
<output id='count'></output>
</div>
<p id='says' aria-live='polite'></p>
<p id='prints'></p>
</header>
<main>
<div id='sites'></div>
<div id='picture'>
";

const RUN: &str = "</div>
</main>
<footer>Keys: right and left for the next step and the one before, Home and End, space to play.
</footer>
<script type='application/json' id='run'>
";

const SCRIPTS: &str = "</script>
<script id='steps'>
";

const SECOND: &str = "</script>
<script id='view'>
";

const END: &str = "</script>
</body>
</html>
";

/// The page of a run, a document of HTML. Its lines are printed with these options. It fails only
/// if memory runs out.
pub fn page_of(alloc: Global, story: &Story, options: Options) -> Result<String, AllocError> {
    let picture = picture_of(alloc, story)?;
    let rows = rows_of(alloc, story)?;
    let mut text = String::new(alloc);
    push_parts(&mut text, &[HEAD, STYLE, BODY, picture.as_str(), RUN])?;
    push_run(alloc, &mut text, story, options, rows.as_slice())?;
    push_parts(&mut text, &[SCRIPTS, STEPS, SECOND, CARDS, VIEW, END])?;
    Ok(text)
}

fn push_parts(text: &mut String, parts: &[&str]) -> Result<(), AllocError> {
    for part in parts {
        text.push_str(part)?;
    }
    Ok(())
}
