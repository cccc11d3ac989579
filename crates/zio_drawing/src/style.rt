//! The looks of a picture. Nothing is told by a hue alone: kinds of places differ in their patterns, results in their
//! frames and words.

/// The styles and the patterns of places.
pub(crate) const STYLE: &str = r##"<style>
text { font-family: "DejaVu Sans", "Segoe UI", Helvetica, Arial, sans-serif; font-size: 12px; fill: #1a1a1a; }
.title { font-size: 20px; font-weight: bold; }
.small { font-size: 11px; fill: #555; }
.caption { font-size: 11px; font-style: italic; fill: #444; }
.strong { font-weight: bold; }
.code { font-family: "DejaVu Sans Mono", Menlo, Consolas, monospace; font-size: 11px; white-space: pre; }
.middle { text-anchor: middle; }
.end { text-anchor: end; }
.inverse { fill: #fff; font-weight: bold; text-anchor: middle; }
.paper { fill: #fff; }
.panel { fill: #f6f6f4; stroke: #8a8a8a; }
.heading { fill: #dcdcd8; }
.held { fill: #fff; stroke: #555; stroke-dasharray: 2 3; }
.ok { fill: #fff; stroke: #2b6a3f; }
.bad { fill: #8c1c13; stroke: #000; stroke-width: 2; }
.waits { fill: #fff3c4; stroke: #7a5b00; stroke-width: 2; stroke-dasharray: 5 3; }
.branch { stroke: #777; fill: none; }
.way { stroke: #7a5b00; stroke-width: 2; stroke-dasharray: 5 3; fill: none; }
.hold { stroke: #555; stroke-width: 2; stroke-dasharray: 1 3; fill: none; }
.arrow { fill: #333; }
.cross { stroke: #8c1c13; stroke-width: 1.5; fill: none; }
.again { fill: #fff; stroke: #333; }
.last { fill: #333; stroke: #333; }
.map { fill: none; stroke: #8a8a8a; }
.tick { stroke: #bbb; }
.band { fill: #f0f0ee; }
.life { opacity: 0.4; }
.edge { fill: none; stroke: #222; stroke-width: 0.75; }
.copy0 { fill: #2c5d8f; }
.copy1 { fill: url(#copy1); }
.copy2 { fill: url(#copy2); }
.header { fill: #111; }
.member { fill: url(#member); }
.claimed { fill: url(#claimed); }
.back { fill: #fff; stroke: #222; stroke-dasharray: 2 2; }
.mark { text-anchor: middle; font-size: 10px; fill: #000; }
</style>
<defs>
<pattern id="copy1" width="6" height="6" patternUnits="userSpaceOnUse" patternTransform="rotate(45)">
<rect width="6" height="6" fill="#f2c46d"/><rect width="2.5" height="6" fill="#8a5a00"/></pattern>
<pattern id="copy2" width="6" height="6" patternUnits="userSpaceOnUse">
<rect width="6" height="6" fill="#b9e3cf"/><rect x="1.5" y="1.5" width="3" height="3" fill="#0b5d3b"/></pattern>
<pattern id="member" width="4" height="4" patternUnits="userSpaceOnUse">
<rect width="4" height="4" fill="#e9c9e0"/><rect width="1.5" height="4" fill="#7a2a63"/></pattern>
<pattern id="claimed" width="4" height="4" patternUnits="userSpaceOnUse">
<rect width="4" height="4" fill="#e2e2e2"/><rect width="4" height="1.5" fill="#7d7d7d"/></pattern>
</defs>
"##;
