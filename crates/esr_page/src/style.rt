//! The fixed parts of the page: its head with the style, and the script that sorts the table. On a wide screen the
//! first sentences about the farthest query are above its timeline and its picture, so that all three are on the first
//! screen. Timeline and picture are next to each other. Until one is pressed, each is reduced, but not so far that its texts
//! are illegible, and scrolls by itself. On paper the buttons of the table's head have no boxes: a head that has any is not
//! repeated on each sheet.

/// The head, and the start of the body.
pub fn head() -> &'static str {
    HEAD
}

/// The script, and the end of the body.
pub fn script() -> &'static str {
    SCRIPT
}

// Classes have three letters or more, since pictures bring some of one letter.
static HEAD: &str = "
<head>
<meta charset='utf-8'/>
<meta name='viewport' content='width=device-width, initial-scale=1'/>
<meta name='color-scheme' content='light dark'/>
<title>How far the reports were off</title>
<style>
:root{--ink:#1f2328;--dim:#59636e;--paper:#fff;--rule:#d1d9e0;--link:#0a56a8;--charged:#9ec5e8;--off:#c4302b}
@media (prefers-color-scheme:dark){:root{--ink:#e6edf3;--dim:#9aa4af;--paper:#0d1117;--rule:#3d444d;--link:#78b6f5;--charged:#2f5f8a;--off:#ff7b72}}
body{margin:0;background:var(--paper);color:var(--ink);font:16px/1.5 sans-serif}
main{max-width:1120px;margin:0 auto;padding:16px}
h1{font-size:1.6em;line-height:1.2;margin:0}
h2{margin-top:1.2em;border-bottom:1px solid var(--rule)}
h3{margin:1em 0 0}
p,li{max-width:46em;overflow-wrap:anywhere}
a{color:var(--link)}
dl{display:flex;flex-wrap:wrap;gap:8px 32px;margin:1em 0}
dt{color:var(--dim)}
dd{margin:0;font-size:1.4em;overflow-wrap:anywhere}
.wide{overflow-x:auto;max-width:100%}
.wide svg{display:block}
.seen{display:flex;flex-wrap:wrap;align-items:flex-start}
ol.chart{display:flex;align-items:flex-start;list-style:none;margin:0;padding:2px 0 4px}
.chart li{max-width:none}
.many li{flex:1 0 4px}
.many .lim{border-top-width:1px}
.few li{flex:0 1 9.5em;min-width:3em}
.chart a{display:block;text-align:center;text-decoration:none}
.col{display:block;position:relative;height:200px;margin:0 1px;border-bottom:1px solid var(--ink)}
.few .col{margin:0 25%}
.chart i{position:absolute;left:0;right:0}
.chg{background:var(--charged)}
.dis{background:var(--off)}
.few .dis{left:25%;right:25%}
.cut::after{content:'';position:absolute;left:-1px;right:-1px;top:14px;height:6px;background:var(--paper)}
.few .cut::after{left:-4px;right:-4px;transform:skewY(-8deg)}
.lim{border-top:2px solid var(--ink)}
.few .nam{display:block;padding-top:4px;font:12px monospace;overflow-wrap:anywhere;text-decoration:underline}
.many .nam{position:absolute;width:1px;height:1px;overflow:hidden;clip-path:inset(50%);white-space:nowrap}
.many li{position:relative}
.key span{margin-right:1.5em}
.key i{display:inline-block;width:16px;height:12px}
.key .lim{height:0;margin-bottom:4px}
.hist{list-style:none;padding:0}
.hist li{display:flex;gap:8px;align-items:center;max-width:none}
.bin{flex:0 0 40%;max-width:16em;text-align:right;overflow-wrap:anywhere}
.bar{flex:1 1 0;display:flex;gap:8px;align-items:center}
.bar i{display:block;height:14px;min-width:1px}
.fold tbody tr:nth-child(n+51):not(:target){display:none}
table{border-collapse:collapse;font-size:.9em}
th,td{padding:4px 10px;border-bottom:1px solid var(--rule);text-align:left;white-space:nowrap}
.num{text-align:right;font-variant-numeric:tabular-nums}
thead th{position:sticky;top:0;background:var(--paper)}
@media (max-width:560px){table{font-size:.75em}th,td{padding:4px}tbody th{white-space:normal;overflow-wrap:anywhere;min-width:4.5em}}
th button{font:inherit;color:var(--link);background:none;border:0;padding:0;cursor:pointer;text-decoration:underline}
tr:target,section:target h3{outline:2px solid var(--link)}
.order{color:var(--dim);max-width:none}
.origin{color:var(--dim);margin-top:0}
.errors{border:2px solid var(--off);border-radius:6px;padding:0 12px;color:var(--off)}
.errors p,.errors ul{margin:6px 0}
@media (min-width:1200px){main{max-width:1240px}dl{margin:.5em 0}h2{margin-top:.6em}main>section:first-of-type{display:flex;flex-direction:column}main>section:first-of-type>:is(h3,h3+.seen+p){order:-1}main>section:first-of-type h3{margin:0}main>section:first-of-type>h3+.seen+p{margin:.3em 0 .6em;max-width:none}main>section:first-of-type .seen{gap:0 16px}main>section:first-of-type .wide{flex:0 1 auto;max-width:calc(42% - 8px)}main>section:first-of-type .wide:first-child{flex:1 1 0;max-width:none}main>section:first-of-type .wide:not(:focus){max-height:44vh;overflow-y:auto}main>section:first-of-type .wide:not(:focus) svg{max-width:max(100%,700px);height:auto;cursor:zoom-in}main>section:first-of-type .wide:focus{flex:1 0 100%;max-width:100%}main>section:first-of-type .seen::after{content:'Each picture scrolls; press it to enlarge it.';flex:1 0 100%;color:var(--dim)}}
@media print{.fold tbody tr:nth-child(n+51):not(:target){display:table-row}th button{display:contents}*{-webkit-print-color-adjust:exact;print-color-adjust:exact}.wide{overflow:visible}.wide svg{max-width:100%;height:auto}.chart li{flex:1 1 0}table{font-size:.7em}th,td{padding:2px 5px}h2,h3{break-after:avoid}section .wide{break-inside:avoid-page}}
</style>
</head>
<body>
<main>
<h1>How far the reports were off</h1>
";

// The script lets a press on a heading of the table sort by its column.
static SCRIPT: &str = "</main>
<script>
for(const head of document.querySelectorAll('thead th')){
const at=head.cellIndex;
const button=document.createElement('button');
button.textContent=head.textContent;
head.replaceChildren(button);
button.onclick=()=>{
const body=head.closest('table').tBodies[0];
const up=head.getAttribute('aria-sort')==='descending';
const key=row=>row.cells[at].textContent;
const number=text=>text==='none'?Infinity:Number(text.replaceAll(',',''));
const compare=(a,b)=>isNaN(number(a))||isNaN(number(b))?a.localeCompare(b):number(a)-number(b)||0;
const rows=[...body.rows].sort((a,b)=>up?compare(key(a),key(b)):compare(key(b),key(a)));
for(const other of head.parentElement.children)other.removeAttribute('aria-sort');
head.setAttribute('aria-sort',up?'ascending':'descending');
body.append(...rows);
};
}
for(const table of document.querySelectorAll('table')){
const count=table.tBodies[0].rows.length;
if(count>50){
table.classList.add('fold');
const more=document.createElement('button');
more.textContent='Show all '+count+' rows';
more.onclick=()=>{table.classList.remove('fold');more.remove();};
table.parentElement.after(more);
}
}
</script>
</body>
";
