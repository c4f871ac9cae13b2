//! How the page looks.

/// The page's style sheet; the picture brings its own.
pub(crate) const STYLE: &str = ":root{color-scheme:light dark}
body{margin:0;font:14px/1.4 Inter,'Segoe UI','Helvetica Neue',Arial,'DejaVu Sans',sans-serif;
background:#f6f8fa;color:#334155}
header{position:sticky;top:0;z-index:1;padding:12px 20px;background:#fff;
border-bottom:1px solid #cbd5e1}
.bar{display:flex;flex-wrap:wrap;gap:8px;align-items:center}
.bar input{flex:1;min-width:160px}
button{font:inherit;padding:4px 14px;border:1px solid #cbd5e1;border-radius:6px;
background:#eef2f6;color:inherit;cursor:pointer}
button:disabled{opacity:.4;cursor:default}
#says{margin:10px 0 0;min-height:2.8em}
#prints{margin:2px 0 0;min-height:1.4em;font:13px monospace;overflow-wrap:anywhere;color:#64748b}
#sites{display:grid;grid-template-columns:repeat(auto-fill,minmax(330px,1fr));gap:12px;
padding:16px 20px}
.card{border:1px solid #cbd5e1;border-radius:10px;padding:10px 14px;background:#fff}
.card.now{border-color:#2f6fb5;box-shadow:0 0 0 1px #2f6fb5}
.card.down,.card.failed{border-style:dashed}
.card h2{font-size:15px;margin:0;display:inline-block}
.card h3{font-size:12px;font-weight:400;color:#64748b;margin:8px 0 0}
.mode{display:inline-block;margin:0 0 0 10px;font-size:12px;color:#64748b}
.failed .mode,.down .mode{color:#b4483c}
table{border-collapse:collapse;margin-top:6px;width:100%;table-layout:fixed}
th,td{padding:2px 6px 2px 0;text-align:left;font-weight:400;white-space:nowrap}
th{font-size:11px;color:#64748b;overflow:hidden;text-overflow:ellipsis}
th:nth-last-child(2){width:27%}
td.new{font-weight:700;text-decoration:underline;text-underline-offset:3px}
ul.way{list-style:none;margin:2px 0 0;padding:0;min-height:4.2em;max-height:9em;overflow:auto;
font-size:13px}
#picture{margin:0 20px 20px;height:60vh;overflow:auto;border:1px solid #cbd5e1;
border-radius:10px;background:#fff}
#picture svg{display:block;margin:0 auto}
#veil{fill:#fff;opacity:.72;pointer-events:none}
#cursor{fill:#2f6fb5;opacity:.1}
footer{padding:0 20px 20px;font-size:12px;color:#64748b}
@media (prefers-color-scheme:dark){
body{background:#0d1117;color:#cbd5e1}
header,.card,#picture{background:#12171e;border-color:#334155}
button{background:#1e2630;border-color:#334155}
#veil{fill:#12171e}
}
";
